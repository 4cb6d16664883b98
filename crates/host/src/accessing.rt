// What a graph holds. `first` picks one of two accessors, as the definitions' own argument does: a closure over the accessor would need its
// contract as a clause.
ghost use Rattle.std.specs.Prelude.{◌≡◌, true, false};
ghost use Rattle.graph.specs.declared.CircuitDag.{CircuitDag};
ghost use Rattle.accessors.specs.Accessors.{commuting_operations, first_parallel_block, last_parallel_block, get};
ghost use Rattle.host.specs.Answers.{lent, on_dag, asked, got_of, involving_qubit, involving_key, key_of};

use crate::answers::no_operation;
use crate::crossing::{dag_of, is_dag};
use crate::{HostAnswer, HostDag, HostNode};
use accessors::KeptNode;
use file::{Refusal, RegisterKey};
use graph::{CircuitDag, NodeIndex, Qubit, check_sound};

// What a node keeps, the number being any.
fn get_node(g: CircuitDag, node: usize) -> Result<KeptNode, Refusal>
    ensures { result ≡ get g node }
{
    let Ok(v) = u16::try_from(node) else {
        check_sound(g)?;
        return Err(Refusal::Absent);
    };
    accessors::get(g, NodeIndex(v))
}

#[unsafe(no_mangle)]
pub extern "C" fn sawhekonu_get(dag: HostDag, node: usize) -> HostNode
    ensures { result ≡ got_of dag node }
{
    if !is_dag(&dag) {
        return HostNode::from(Err(Refusal::Unsound));
    }
    HostNode::from(get_node(dag_of(dag), node))
}

// The commuting list.
#[unsafe(no_mangle)]
pub extern "C" fn sawhekonu_commuting_operations(dag: HostDag, buffer: &mut [u16]) -> HostAnswer
    ensures { record { answer = result; buffer = buffer.new }
        ≡ on_dag dag buffer.old (λ (g : CircuitDag). lent (commuting_operations g buffer.old)) }
{
    if !is_dag(&dag) {
        return HostAnswer::from(Refusal::Unsound);
    }
    HostAnswer::from(accessors::commuting_operations(dag_of(dag), buffer))
}

// The nodes of the first block.
#[unsafe(no_mangle)]
pub extern "C" fn sawhekonu_first_parallel_block(dag: HostDag, buffer: &mut [u16]) -> HostAnswer
    ensures { record { answer = result; buffer = buffer.new }
        ≡ on_dag dag buffer.old (λ (g : CircuitDag). lent (first_parallel_block g buffer.old)) }
{
    if !is_dag(&dag) {
        return HostAnswer::from(Refusal::Unsound);
    }
    HostAnswer::from(accessors::first_parallel_block(dag_of(dag), buffer))
}

// The nodes of the last block.
#[unsafe(no_mangle)]
pub extern "C" fn sawhekonu_last_parallel_block(dag: HostDag, buffer: &mut [u16]) -> HostAnswer
    ensures { record { answer = result; buffer = buffer.new }
        ≡ on_dag dag buffer.old (λ (g : CircuitDag). lent (last_parallel_block g buffer.old)) }
{
    if !is_dag(&dag) {
        return HostAnswer::from(Refusal::Unsound);
    }
    HostAnswer::from(accessors::last_parallel_block(dag_of(dag), buffer))
}

// The first or last operation that involves a qubit; a qubit over 63 has none.
fn operation_of_qubit(first: bool, dag: &HostDag, qubit: usize) -> HostAnswer
    ensures { result ≡ asked dag.now (involving_qubit first qubit) }
{
    if !is_dag(dag) {
        return HostAnswer::from(Refusal::Unsound);
    }
    let g = dag_of(*dag);
    let Ok(q) = u8::try_from(qubit) else {
        return no_operation(g);
    };
    if first {
        HostAnswer::from(accessors::first_operation_involving_qubit(g, Qubit(q)))
    } else {
        HostAnswer::from(accessors::last_operation_involving_qubit(g, Qubit(q)))
    }
}

#[unsafe(no_mangle)]
pub extern "C" fn sawhekonu_first_operation_involving_qubit(
    dag: HostDag,
    qubit: usize,
) -> HostAnswer
    ensures { result ≡ asked dag (involving_qubit true qubit) }
{
    operation_of_qubit(true, &dag, qubit)
}

#[unsafe(no_mangle)]
pub extern "C" fn sawhekonu_last_operation_involving_qubit(dag: HostDag, qubit: usize) -> HostAnswer
    ensures { result ≡ asked dag (involving_qubit false qubit) }
{
    operation_of_qubit(false, &dag, qubit)
}

// A key that a map may have.
fn key_of(name: usize, index: usize) -> Option<RegisterKey>
    ensures { result ≡ key_of name index }
{
    let name = u8::try_from(name).ok()?;
    let index = u16::try_from(index).ok()?;
    Some(RegisterKey { name, index })
}

// The first or last operation that involves an entry of a register; a name over 255 or an index over 65535 has none.
fn operation_of_key(first: bool, dag: &HostDag, name: usize, index: usize) -> HostAnswer
    ensures { result ≡ asked dag.now (involving_key first name index) }
{
    if !is_dag(dag) {
        return HostAnswer::from(Refusal::Unsound);
    }
    let g = dag_of(*dag);
    let Some(key) = key_of(name, index) else {
        return no_operation(g);
    };
    if first {
        HostAnswer::from(accessors::first_operation_involving_classical(g, key))
    } else {
        HostAnswer::from(accessors::last_operation_involving_classical(g, key))
    }
}

#[unsafe(no_mangle)]
pub extern "C" fn sawhekonu_first_operation_involving_classical(
    dag: HostDag,
    name: usize,
    index: usize,
) -> HostAnswer
    ensures { result ≡ asked dag (involving_key true name index) }
{
    operation_of_key(true, &dag, name, index)
}

#[unsafe(no_mangle)]
pub extern "C" fn sawhekonu_last_operation_involving_classical(
    dag: HostDag,
    name: usize,
    index: usize,
) -> HostAnswer
    ensures { result ≡ asked dag (involving_key false name index) }
{
    operation_of_key(false, &dag, name, index)
}
