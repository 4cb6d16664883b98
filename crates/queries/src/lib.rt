// What a graph answers into a lent buffer: the queries, and the conversion to a circuit. The rules are in specs/.
#![tactic(auto)]

mod arcs;
mod conversion;
mod kept;
mod node;
mod queries;

pub use arcs::Arcs;
pub use conversion::{definitions_first, in_file_order, to_circuit};
use file::Refusal;
pub use queries::{
    answer_list, answer_marked, blocking_predecessors, execution_blocked, new_front_layer,
    successors,
};

// Node or record numbers in an order: the first count of the list. A list of its own length would stand on the heap.
// Not graph's Commuting, which has such fields and is a part of the graph, of nodes that ascend.
#[derive(Clone, Copy)]
pub struct Order {
    pub count: usize,
    pub list: [u16; 512],
}
