// Insertion at both ends and the load of a circuit file. The rules are in specs/.
#![tactic(auto)]

mod assembling;
mod conversion;
mod inserting;
mod loading;
mod nodes;

pub use conversion::from_circuit;
use file::Refusal;
use graph::{CircuitDag, NodeIndex};
pub use inserting::{insert, insert_by};
pub use loading::{load, load_by};

// What an insertion answers, and the graph: a struct, and no Result, since the graph comes back in either case.
#[derive(Clone, Copy)]
pub struct Inserted {
    pub answer: Result<NodeIndex, Refusal>,
    pub graph: CircuitDag,
}

// What a load answers, and the graph: a struct, and no Result, since a refused load promises the empty graph. Two
// types, as document 01 has two calls: of one with a parameter an alias is no name in specs/, so that each definition
// would write the parameter.
#[derive(Clone, Copy)]
pub struct Loaded {
    pub answer: Result<(), Refusal>,
    pub graph: CircuitDag,
}
