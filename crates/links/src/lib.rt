// The two ends and the edges of a graph: what a record's qubits do to them, at the back and, mirrored, at the front. The rules are in
// specs/Links.antt.
#![tactic(auto)]

mod ends;
mod numbers;
mod others;
mod records;

use file::Refusal;
use graph::{Edges, End};
pub use records::{link_node, link_records};

// Which all-qubit node a new qubit's entry at the far end becomes: the near end's, which is document 01's rule, or the far end's, K6's.
#[derive(Clone, Copy, PartialEq, Eq, Debug)]
pub enum LoadingRule {
    NearAll,
    FarAll,
}

// How many nodes there are, whether all records were accepted, and the ends and edges that join the nodes. No Result: a refusal has a count and,
// of a single record, the ends and edges that were handed in.
#[derive(Clone, Copy)]
pub struct LinkedRecords {
    pub accepted: usize,
    pub answer: Result<(), Refusal>,
    pub edges: Edges,
    pub first: End,
    pub last: End,
}
