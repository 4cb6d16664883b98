// From a circuit and to a circuit.
ghost use Rattle.std.specs.Prelude.{◌≡◌};
ghost use Rattle.graph.specs.declared.CircuitDag.{CircuitDag};
ghost use Rattle.queries.specs.Conversion.{to_circuit};
ghost use Rattle.insertion.specs.Conversion.{from_circuit};
ghost use Rattle.host.specs.Answers.{graph_loaded, lent, on_dag};

use crate::crossing::{dag_of, is_dag};
use crate::{HostAnswer, HostDag, HostGraph};
use file::Refusal;

#[unsafe(no_mangle)]
pub extern "C" fn sawhekonu_from_circuit(file: &[u8]) -> HostGraph
    ensures { result ≡ graph_loaded (from_circuit file.now) }
{
    HostGraph::from(insertion::from_circuit(file))
}

#[unsafe(no_mangle)]
pub extern "C" fn sawhekonu_to_circuit(dag: HostDag, buffer: &mut [u16]) -> HostAnswer
    ensures { record { answer = result; buffer = buffer.new }
        ≡ on_dag dag buffer.old (λ (g : CircuitDag). lent (to_circuit g buffer.old)) }
{
    if !is_dag(&dag) {
        return HostAnswer::from(Refusal::Unsound);
    }
    HostAnswer::from(queries::to_circuit(dag_of(dag), buffer))
}
