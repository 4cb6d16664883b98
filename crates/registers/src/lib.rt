// The register maps of a circuit's records, and the links and maps of a list of records together. The rules are in
// specs/.
#![tactic(auto)]

mod entries;
mod maps;

use file::Refusal;
use graph::Registers;
use links::LinkedRecords;
pub use maps::{register_record, register_records};

// How many nodes there are, whether all records were accepted, and the register maps. No Result: a refusal has a count and, of a single record, the
// maps that were handed in.
#[derive(Clone, Copy)]
pub struct Registered {
    pub accepted: usize,
    pub answer: Result<(), Refusal>,
    pub first: Registers,
    pub last: Registers,
}

// The ends and edges of a list of records, and their register maps. Each has its answer. The maps see only the records
// before the links' first refusal, so that a refusal of the maps is the earlier one.
#[derive(Clone, Copy)]
pub struct RegisteredRecords {
    pub linked: LinkedRecords,
    pub registered: Registered,
}
