// The source's remaining accessors, as queries on a handed-in graph. The rules are in specs/.
#![tactic(auto)]

ghost use Rattle.std.specs.Prelude.{◌≡◌, ◌≤◌};
ghost use Rattle.graph.specs.Dag.{at_qubit, entries_of};
ghost use Rattle.accessors.specs.Keys.{FirstWith};
ghost use Rattle.accessors.specs.Accessors.{operation_of, node_of_key, get as get_rule, commuting_operations};
ghost use Rattle.accessors.specs.Accessors.{first_parallel_block, last_parallel_block};
ghost use Rattle.accessors.specs.Accessors.{first_involving_qubit, last_involving_qubit, first_involving_classical, last_involving_classical};

use file::{Refusal, RegisterKey};
use graph::{CircuitDag, End, NodeIndex, Qubit, Registers, check_sound};
use queries::{answer_list, answer_marked};

// What a node keeps.
#[repr(C)]
#[derive(Clone, Copy, Debug, Default, PartialEq, Eq)]
pub struct KeptNode {
    pub kind: u8,
    pub form: u8,
    pub label: u16,
    pub place: i16,
}

// What node v keeps.
#[tactic(auto, unfolding(crate::specs::Accessors::get))]
pub fn get(g: CircuitDag, v: NodeIndex) -> Result<KeptNode, Refusal>
    ensures { result ≡ get_rule g v.0 }
{
    check_sound(g)?;
    let i = usize::from(v.0);
    if g.nodes.count <= i {
        return Err(Refusal::Absent);
    }
    Ok(KeptNode {
        kind: g.nodes.kind[i],
        form: g.nodes.form[i],
        label: g.nodes.label[i],
        place: g.nodes.place[i],
    })
}

// The commuting list.
#[tactic(auto, unfolding(crate::specs::Accessors::commuting_operations))]
pub fn commuting_operations(g: CircuitDag, buffer: &mut [u16]) -> Result<usize, Refusal>
    ensures { record { answer = result; buffer = buffer.new } ≡ commuting_operations g buffer.old }
{
    check_sound(g)?;
    answer_list(&g.commuting.list[..g.commuting.count], buffer)
}

// The two functions for the two blocks, and those for first and last operations below, have the source's names; what
// they share is `answer_marked`, `at_qubit` and `at_key`.

// The nodes of the first block, ascending.
#[tactic(auto, unfolding(crate::specs::Accessors::first_parallel_block))]
pub fn first_parallel_block(g: CircuitDag, buffer: &mut [u16]) -> Result<usize, Refusal>
    ensures { record { answer = result; buffer = buffer.new } ≡ first_parallel_block g buffer.old }
{
    check_sound(g)?;
    answer_marked(g.first.block, buffer)
}

// The nodes of the last block, ascending.
#[tactic(auto, unfolding(crate::specs::Accessors::last_parallel_block))]
pub fn last_parallel_block(g: CircuitDag, buffer: &mut [u16]) -> Result<usize, Refusal>
    ensures { record { answer = result; buffer = buffer.new } ≡ last_parallel_block g buffer.old }
{
    check_sound(g)?;
    answer_marked(g.last.block, buffer)
}

// The operation that an end's map has at a qubit: 65535 is none there, as in all arrays of the graph.
fn at_qubit(end: End, q: Qubit) -> Option<NodeIndex>
    ensures { result ≡ operation_of (at_qubit end q.0) }
{
    match end.node.get(usize::from(q.0)) {
        Some(&v) if v != 65535 => Some(NodeIndex(v)),
        _ => None,
    }
}

// The first operation that involves a qubit.
#[tactic(auto, unfolding(crate::specs::Accessors::first_involving_qubit))]
pub fn first_operation_involving_qubit(
    g: CircuitDag,
    q: Qubit,
) -> Result<Option<NodeIndex>, Refusal>
    ensures { result ≡ first_involving_qubit g q.0 }
{
    check_sound(g)?;
    Ok(at_qubit(g.first, q))
}

// The last operation that involves a qubit.
#[tactic(auto, unfolding(crate::specs::Accessors::last_involving_qubit))]
pub fn last_operation_involving_qubit(g: CircuitDag, q: Qubit) -> Result<Option<NodeIndex>, Refusal>
    ensures { result ≡ last_involving_qubit g q.0 }
{
    check_sound(g)?;
    Ok(at_qubit(g.last, q))
}

// The first position in a register map that has a key.
fn position_of(r: &Registers, key: RegisterKey) -> Option<usize>
    requires { r.now.count ≤ 256 }
    ensures { FirstWith r.now key result }
{
    (0..r.count).find(|i| {
        RegisterKey {
            name: r.name[*i],
            index: r.index[*i],
        } == key
    })
}

// The operation that a register map has at a key.
fn at_key(r: Registers, key: RegisterKey) -> Option<NodeIndex>
    requires { r.count ≤ 256 }
    ensures { result ≡ node_of_key key (entries_of r) }
{
    let i = position_of(&r, key)?;
    Some(NodeIndex(r.node[i]))
}

// The first operation that involves a classical register's entry.
#[tactic(auto, unfolding(crate::specs::Accessors::first_involving_classical))]
pub fn first_operation_involving_classical(
    g: CircuitDag,
    key: RegisterKey,
) -> Result<Option<NodeIndex>, Refusal>
    ensures { result ≡ first_involving_classical g key }
{
    check_sound(g)?;
    Ok(at_key(g.first_registers, key))
}

// The last operation that involves a classical register's entry.
#[tactic(auto, unfolding(crate::specs::Accessors::last_involving_classical))]
pub fn last_operation_involving_classical(
    g: CircuitDag,
    key: RegisterKey,
) -> Result<Option<NodeIndex>, Refusal>
    ensures { result ≡ last_involving_classical g key }
{
    check_sound(g)?;
    Ok(at_key(g.last_registers, key))
}
