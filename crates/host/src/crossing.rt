// The graph and the walk as they cross to C: what came as ours, and ours as what goes. A walk that came is taken by
// TryFrom. A graph is tested first and then taken as it is: TryFrom was tried, and moves its 16 KB once more, out of the
// Result. execution_blocked on 256 two-qubit gates in a brick wall was then 0.93 to 1.00 times as fast as the original's,
// in three runs; the bar is 1.1, and so it is 1.19 to 1.40. No From either: it would take bytes that are no marks.
ghost use Rattle.std.specs.Prelude.{◌≡◌};
ghost use Rattle.host.specs.Marks.{end_of, host_end, is_dag, dag_of, host_of, walk_from, host_walk};

use crate::marks::{are_marks, bytes_of, marks_of};
use crate::{HostDag, HostEnd, HostWalk};
use file::Refusal;
use graph::{CircuitDag, End};
use walk::ParallelBlocks;

// Whether the bytes of both blocks are marks.
#[tactic(auto, unfolding(crate::specs::Marks::is_dag))]
pub(crate) fn is_dag(dag: &HostDag) -> bool
    ensures { result ≡ is_dag dag.now }
{
    are_marks(&dag.first.block) && are_marks(&dag.last.block)
}

fn end_of(end: HostEnd) -> End
    ensures { result ≡ end_of end }
{
    End {
        node: end.node,
        all: end.all,
        block: marks_of(&end.block),
    }
}

#[tactic(auto, unfolding(crate::specs::Marks::dag_of))]
pub(crate) fn dag_of(dag: HostDag) -> CircuitDag
    ensures { result ≡ dag_of dag }
{
    CircuitDag {
        nodes: dag.nodes,
        edges: dag.edges,
        first: end_of(dag.first),
        last: end_of(dag.last),
        first_registers: dag.first_registers,
        last_registers: dag.last_registers,
        commuting: dag.commuting,
        backs: dag.backs,
        fronts: dag.fronts,
    }
}

impl From<End> for HostEnd {
    ghost from_gives = { λ e r. r ≡ host_end e };

    fn from(end: End) -> HostEnd {
        HostEnd {
            node: end.node,
            all: end.all,
            block: bytes_of(&end.block),
        }
    }
}

impl From<CircuitDag> for HostDag {
    ghost from_gives = { λ g r. r ≡ host_of g };

    #[tactic(auto, unfolding(crate::specs::Marks::host_of))]
    fn from(dag: CircuitDag) -> HostDag {
        HostDag {
            nodes: dag.nodes,
            edges: dag.edges,
            first: HostEnd::from(dag.first),
            last: HostEnd::from(dag.last),
            first_registers: dag.first_registers,
            last_registers: dag.last_registers,
            commuting: dag.commuting,
            backs: dag.backs,
            fronts: dag.fronts,
        }
    }
}

impl TryFrom<HostWalk> for ParallelBlocks {
    type Error = Refusal;

    ghost try_from_gives = { λ w r. r ≡ walk_from w };

    #[tactic(auto, unfolding(crate::specs::Marks::is_walk, crate::specs::Marks::walk_of))]
    fn try_from(walk: HostWalk) -> Result<ParallelBlocks, Refusal> {
        if !(are_marks(&walk.current) && are_marks(&walk.executed)) {
            return Err(Refusal::Absent);
        }
        Ok(ParallelBlocks {
            current: marks_of(&walk.current),
            executed: marks_of(&walk.executed),
        })
    }
}

impl From<ParallelBlocks> for HostWalk {
    ghost from_gives = { λ w r. r ≡ host_walk w };

    #[tactic(auto, unfolding(crate::specs::Marks::host_walk))]
    fn from(walk: ParallelBlocks) -> HostWalk {
        HostWalk {
            current: bytes_of(&walk.current),
            executed: bytes_of(&walk.executed),
        }
    }
}
