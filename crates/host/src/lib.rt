// The library for C and Rust: schedule, load, insertion, soundness, conversions, queries, accessors, walk and chain
// under a C name; include/sawhekonu.h is its header. Graph, walk and answers cross by value as #[repr(C)] structs, a
// slice as its pointer and length, a node number as usize, a mark as a byte. What the caller hands in is tested: bytes
// that are no marks are refused, as is a number that is no node's. What is left to the caller is what C cannot say:
// each pointer has its length's elements, and lent slices do not overlap. Each call tests its graph by the same two
// lines, and a node number by two more. One function over the call that follows would take a closure that lends the
// buffer on, whose clauses say no less than the lines, and which did not prove.
#![tactic(auto)]

mod accessing;
mod answers;
mod chains;
mod conversion;
mod crossing;
mod inserting;
mod marks;
mod querying;
mod reading;
mod scheduling;
mod walking;

use accessors::KeptNode;
use graph::{Commuting, Edges, NodeIndex, Nodes, Registers};

// One end of the circuit; a byte of the block is a mark, 0 or 1. A type of C's own, as the graph and the walk below:
// one type over what a mark is would run through every contract of graph.
#[repr(C)]
#[derive(Clone, Copy)]
pub struct HostEnd {
    pub node: [u16; 64],
    pub all: NodeIndex,
    pub block: [u8; 512],
}

// The graph, its fields in the order of CircuitDag.
#[repr(C)]
#[derive(Clone, Copy)]
pub struct HostDag {
    pub nodes: Nodes,
    pub backs: usize,
    pub edges: Edges,
    pub fronts: usize,
    pub first: HostEnd,
    pub last: HostEnd,
    pub first_registers: Registers,
    pub last_registers: Registers,
    pub commuting: Commuting,
}

// The walk's two sets; a byte is a mark, 0 or 1.
#[repr(C)]
#[derive(Clone, Copy)]
pub struct HostWalk {
    pub current: [u8; 512],
    pub executed: [u8; 512],
}

// What a call answers. Refused: document 01's number, and the pair or record that it is about, 65535 if none. Accepted: 0, and what the call
// found (a node, a count of entries or blocks; 65535 for a step that gives None).
#[repr(C)]
#[derive(Clone, Copy)]
pub struct HostAnswer {
    pub refusal: usize,
    pub value: usize,
}

// An answer with the graph.
#[repr(C)]
#[derive(Clone, Copy)]
pub struct HostGraph {
    pub answer: HostAnswer,
    pub graph: HostDag,
}

// An answer with the walk.
#[repr(C)]
#[derive(Clone, Copy)]
pub struct HostStep {
    pub answer: HostAnswer,
    pub walk: HostWalk,
}

// An answer with the place of a record in the file; 0 and 0 where it is refused.
#[repr(C)]
#[derive(Clone, Copy)]
pub struct HostPlace {
    pub answer: HostAnswer,
    pub offset: usize,
    pub length: usize,
}

// An answer with what a node keeps; zeros where it is refused.
#[repr(C)]
#[derive(Clone, Copy)]
pub struct HostNode {
    pub answer: HostAnswer,
    pub node: KeptNode,
}
