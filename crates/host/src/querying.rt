// The queries.
ghost use Rattle.std.specs.Prelude.{◌≡◌};
ghost use Rattle.graph.specs.declared.CircuitDag.{CircuitDag};
ghost use Rattle.queries.specs.Queries.{execution_blocked, blocking_predecessors, successors, new_front_layer};
ghost use Rattle.host.specs.Answers.{lent, on_dag};

use crate::answers::no_node;
use crate::crossing::{dag_of, is_dag};
use crate::{HostAnswer, HostDag};
use file::Refusal;
use graph::NodeIndex;

#[unsafe(no_mangle)]
pub extern "C" fn sawhekonu_execution_blocked(
    dag: HostDag,
    executed: &[u16],
    node: usize,
    buffer: &mut [u16],
) -> HostAnswer
    ensures { record { answer = result; buffer = buffer.new }
        ≡ on_dag dag buffer.old (λ (g : CircuitDag). lent (execution_blocked g executed.now node buffer.old)) }
{
    if !is_dag(&dag) {
        return HostAnswer::from(Refusal::Unsound);
    }
    let Ok(v) = u16::try_from(node) else {
        return no_node(dag_of(dag));
    };
    HostAnswer::from(queries::execution_blocked(dag_of(dag), executed, NodeIndex(v), buffer))
}

#[unsafe(no_mangle)]
pub extern "C" fn sawhekonu_blocking_predecessors(
    dag: HostDag,
    executed: &[u16],
    node: usize,
    buffer: &mut [u16],
) -> HostAnswer
    ensures { record { answer = result; buffer = buffer.new }
        ≡ on_dag dag buffer.old (λ (g : CircuitDag). lent (blocking_predecessors g executed.now node buffer.old)) }
{
    if !is_dag(&dag) {
        return HostAnswer::from(Refusal::Unsound);
    }
    let Ok(v) = u16::try_from(node) else {
        return no_node(dag_of(dag));
    };
    HostAnswer::from(queries::blocking_predecessors(dag_of(dag), executed, NodeIndex(v), buffer))
}

#[unsafe(no_mangle)]
pub extern "C" fn sawhekonu_successors(dag: HostDag, node: usize, buffer: &mut [u16]) -> HostAnswer
    ensures { record { answer = result; buffer = buffer.new }
        ≡ on_dag dag buffer.old (λ (g : CircuitDag). lent (successors g node buffer.old)) }
{
    if !is_dag(&dag) {
        return HostAnswer::from(Refusal::Unsound);
    }
    let Ok(v) = u16::try_from(node) else {
        return no_node(dag_of(dag));
    };
    HostAnswer::from(queries::successors(dag_of(dag), NodeIndex(v), buffer))
}

#[unsafe(no_mangle)]
pub extern "C" fn sawhekonu_new_front_layer(
    dag: HostDag,
    executed: &[u16],
    layer: &[u16],
    node: usize,
    buffer: &mut [u16],
) -> HostAnswer
    ensures { record { answer = result; buffer = buffer.new }
        ≡ on_dag dag buffer.old (λ (g : CircuitDag).
        lent (new_front_layer g executed.now layer.now node buffer.old)) }
{
    if !is_dag(&dag) {
        return HostAnswer::from(Refusal::Unsound);
    }
    let Ok(v) = u16::try_from(node) else {
        return no_node(dag_of(dag));
    };
    HostAnswer::from(queries::new_front_layer(dag_of(dag), executed, layer, NodeIndex(v), buffer))
}
