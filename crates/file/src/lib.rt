// The circuit file of document 01, with K1's pairs, K2's refusal of empty sets and K3's longest list: header and pairs,
// the record reader, the record parser, and the causes of refusal of every crate. The rules are in specs/, a file for
// each module.
#![tactic(auto)]

mod pairs;
mod records;
mod refusals;

pub use pairs::{
    byte_at, check_file, locate_pair, locate_record, part_of, read_record, record_at, record_count,
};
pub use records::{
    involved_classical, is_front, parse_record, qubit_form, record_label, register_form,
    register_key,
};
pub use refusals::{at_record, refusal_number, refusal_value};

// "Causes of refusal" of all crates: definitions number_of and value_of give the document's number and value of each.
// Whatever can be refused answers a Result with this error.
#[derive(Clone, Copy, Debug, PartialEq, Eq)]
pub enum Refusal {
    FileTooShort,
    TooManyRecords,
    BadPair(usize),
    BadRecord(usize),
    TooManyNodes,
    TooManyEdges(usize),
    TooManyRegisters(usize),
    Absent,
    NotInLayer,
    ShortBuffer,
    Unsound,
    EmptySet(usize),
}

// Where a record stands in the file.
#[derive(Clone, Copy, Debug, PartialEq, Eq)]
pub struct Place {
    pub offset: usize,
    pub length: usize,
}

// A record's part of the file, with where it stands or why it is refused. No Result of both: where the place is refused
// the part is promised too, and is empty.
#[derive(Clone, Copy)]
pub struct RecordPart<'a> {
    pub bytes: &'a [u8],
    pub place: Result<Place, Refusal>,
}

// The qubits that a record involves (the source's InvolvedQubits); bit q of the mask is qubit q.
#[derive(Clone, Copy, Debug, PartialEq, Eq)]
pub enum InvolvedQubits {
    None,
    All,
    Set(u64),
}

// The registers that a record involves (the source's InvolvedClassical), by name: a Set with the count of its entries,
// a definition with its length.
#[derive(Clone, Copy, Debug, PartialEq, Eq)]
pub enum InvolvedClassical {
    None,
    All(u8),
    AllQubits(u8),
    Set(u8),
    Definition(u8, u16),
}

// A key of a register map. Keys come by name, then index.
#[derive(Clone, Copy, Debug, PartialEq, Eq, PartialOrd, Ord)]
pub struct RegisterKey {
    pub name: u8,
    pub index: u16,
}

// What a record says. The kind is a byte and no enum: a handed-in graph and C hold kinds 6 to 255 too, so that an enum
// would become the number again where a node is made. front is byte 0, a bool here and wherever it is handed on: an enum
// would be tested by the same `if`.
#[derive(Clone, Copy, Debug, PartialEq, Eq)]
pub struct Record {
    pub front: bool,
    pub kind: u8,
    pub label: u16,
    pub qubits: InvolvedQubits,
    pub classical: InvolvedClassical,
}
