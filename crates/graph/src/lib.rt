// The circuit dependency graph with two open ends: its types, sets of nodes, the empty graph, and which graphs are sound. The rules are in specs/.
// Every array holds plain numbers, so that a part of the graph can be lent to a function in place. Columns stand side by
// side, with a count of their own: the graph crosses to C as it is, and its memory is fixed (no Vec, no map).
#![tactic(auto)]

pub mod checking;
pub mod sets;
pub mod soundness;

ghost use Rattle.std.specs.Prelude.{◌≡◌};
ghost use Rattle.graph.specs.Dag.{no_end, no_registers, empty};

pub use checking::{check_graph, check_sound};
pub use sets::{has_member, members_below, no_marks};
pub use soundness::{is_register_map, is_sound};

// A node number (the source's NodeIndex); 65535 where there is none. The arrays below hold such numbers, since they
// cross to C and document 01 marks an absent entry in them: an Option stands where a function answers, but in the
// chain, where any number will do.
#[repr(C)]
#[derive(Clone, Copy, Debug, PartialEq, Eq)]
pub struct NodeIndex(pub u16);

// A qubit number, 0 to 63.
#[derive(Clone, Copy, Debug, PartialEq, Eq)]
pub struct Qubit(pub u8);

// What each node keeps, at its number.
#[repr(C)]
#[derive(Clone, Copy)]
pub struct Nodes {
    pub count: usize,
    pub kind: [u8; 512],
    pub form: [u8; 512],
    pub label: [u16; 512],
    pub place: [i16; 512],
}

// Edge i runs from node from[i] to node to[i].
#[repr(C)]
#[derive(Clone, Copy)]
pub struct Edges {
    pub count: usize,
    pub from: [u16; 2048],
    pub to: [u16; 2048],
}

// One end of the circuit: the map from qubit to node (65535: absent), the all-qubit node, the block.
#[repr(C)]
#[derive(Clone, Copy)]
pub struct End {
    pub node: [u16; 64],
    pub all: NodeIndex,
    pub block: [bool; 512],
}

// A register map: entry i has the key (name[i], index[i]) and the node node[i].
#[repr(C)]
#[derive(Clone, Copy)]
pub struct Registers {
    pub count: usize,
    pub name: [u8; 256],
    pub index: [u16; 256],
    pub node: [u16; 256],
}

#[repr(C)]
#[derive(Clone, Copy)]
pub struct Commuting {
    pub count: usize,
    pub list: [u16; 512],
}

// The graph. The two counts stand between the large parts: where those lie side by side, the compiler gathers them in a copy of their own each
// time that a graph is made of parts.
#[repr(C)]
#[derive(Clone, Copy)]
pub struct CircuitDag {
    pub nodes: Nodes,
    pub backs: usize,
    pub edges: Edges,
    pub fronts: usize,
    pub first: End,
    pub last: End,
    pub first_registers: Registers,
    pub last_registers: Registers,
    pub commuting: Commuting,
}

// An end that names no node.
#[tactic(auto, unfolding(crate::specs::Dag::no_end))]
pub fn no_end() -> End
    ensures { result ≡ no_end }
{
    End {
        node: [65535; 64],
        all: NodeIndex(65535),
        block: [false; 512],
    }
}

// A register map without entries.
#[tactic(auto, unfolding(crate::specs::Dag::no_registers))]
pub fn no_registers() -> Registers
    ensures { result ≡ no_registers }
{
    Registers {
        count: 0,
        name: [0; 256],
        index: [0; 256],
        node: [0; 256],
    }
}

// No nodes.
#[tactic(auto, unfolding(crate::specs::Dag::empty))]
pub fn no_nodes() -> Nodes
    ensures { result ≡ empty.nodes }
{
    Nodes {
        count: 0,
        kind: [0; 512],
        form: [0; 512],
        label: [0; 512],
        place: [0; 512],
    }
}

// No edges.
#[tactic(auto, unfolding(crate::specs::Dag::empty))]
pub fn no_edges() -> Edges
    ensures { result ≡ empty.edges }
{
    Edges {
        count: 0,
        from: [0; 2048],
        to: [0; 2048],
    }
}

// A commuting list without nodes.
#[tactic(auto, unfolding(crate::specs::Dag::empty))]
pub fn no_commuting() -> Commuting
    ensures { result ≡ empty.commuting }
{
    Commuting {
        count: 0,
        list: [0; 512],
    }
}

impl CircuitDag {
    // The empty graph.
    #[tactic(auto, unfolding(crate::specs::Dag::empty))]
    pub fn new() -> CircuitDag
        ensures { result ≡ empty }
    {
        CircuitDag {
            nodes: no_nodes(),
            edges: no_edges(),
            first: no_end(),
            last: no_end(),
            first_registers: no_registers(),
            last_registers: no_registers(),
            commuting: no_commuting(),
            backs: 0,
            fronts: 0,
        }
    }
}
