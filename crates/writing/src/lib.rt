// Circuit files written from records: fields and records at a position of a lent buffer, and a whole file of gates,
// without slack. A file of records reads again to just those records (specs/Writing.antt, FileReads). Every public
// function is total.
#![tactic(auto)]

mod fields;
mod gates;

pub use fields::{gate_record, put_gate, put_part, put_u16};
use file::Refusal;
pub use gates::write_gates;

// An ordinary record on the qubits of a mask, at the front or the back.
#[derive(Clone, Copy, Debug, PartialEq, Eq)]
pub struct Gate {
    pub front: bool,
    pub mask: u64,
}
