// The chain.
ghost use Rattle.std.specs.Prelude.{◌≡◌};
ghost use Rattle.graph.specs.declared.CircuitDag.{CircuitDag};
ghost use Rattle.planning.specs.Chain.{chain};
ghost use Rattle.host.specs.Answers.{lent, on_dag};

use crate::crossing::{dag_of, is_dag};
use crate::{HostAnswer, HostDag};
use file::Refusal;

#[unsafe(no_mangle)]
pub extern "C" fn sawhekonu_chain(dag: HostDag, buffer: &mut [u16]) -> HostAnswer
    ensures { record { answer = result; buffer = buffer.new }
        ≡ on_dag dag buffer.old (λ (g : CircuitDag). lent (chain g buffer.old)) }
{
    if !is_dag(&dag) {
        return HostAnswer::from(Refusal::Unsound);
    }
    HostAnswer::from(planning::chain(dag_of(dag), buffer))
}
