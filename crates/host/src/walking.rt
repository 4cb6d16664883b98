// The step of the walk, and the whole walk.
ghost use Rattle.std.specs.Prelude.{◌≡◌};
ghost use Rattle.graph.specs.declared.CircuitDag.{CircuitDag};
ghost use Rattle.walk.specs.Blocks.{whole_walk};
ghost use Rattle.host.specs.Answers.{on_dag, stepped_from, walked};

use crate::answers::no_node;
use crate::crossing::{dag_of, is_dag};
use crate::{HostAnswer, HostDag, HostStep, HostWalk};
use file::Refusal;
use walk::ParallelBlocks;

#[unsafe(no_mangle)]
pub extern "C" fn sawhekonu_next(dag: HostDag, state: HostWalk, buffer: &mut [u16]) -> HostStep
    ensures { record { answer = result.answer; walk = result.walk; buffer = buffer.new }
        ≡ stepped_from dag state buffer.old }
{
    if !is_dag(&dag) {
        return HostStep {
            answer: HostAnswer::from(Refusal::Unsound),
            walk: state,
        };
    }
    let Ok(mut walk) = ParallelBlocks::try_from(state) else {
        return HostStep {
            answer: no_node(dag_of(dag)),
            walk: state,
        };
    };
    let answer = HostAnswer::from(walk.next(dag_of(dag), buffer));
    HostStep {
        answer,
        walk: HostWalk::from(walk),
    }
}

#[unsafe(no_mangle)]
pub extern "C" fn sawhekonu_whole_walk(dag: HostDag, buffer: &mut [u16]) -> HostAnswer
    ensures { record { answer = result; buffer = buffer.new }
        ≡ on_dag dag buffer.old (λ (g : CircuitDag). walked (whole_walk g buffer.old)) }
{
    if !is_dag(&dag) {
        return HostAnswer::from(Refusal::Unsound);
    }
    HostAnswer::from(walk::whole_walk(dag_of(dag), buffer))
}
