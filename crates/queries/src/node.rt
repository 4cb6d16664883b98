// A node that is asked about.
ghost use Rattle.std.specs.Prelude.{◌≡◌, true, set, ◌<◌, ◌≤◌, MatchResult, Err};
ghost use Rattle.graph.specs.Dag.{size};
ghost use Rattle.queries.specs.Queries.{check_node};
ghost use Rattle.queries.specs.Reach.{Along};

use crate::Arcs;
use file::Refusal;
use graph::{CircuitDag, NodeIndex};

// A number below 512, as the nodes of a sound graph have, so that it indexes an array of marks.
#[derive(Clone, Copy)]
pub(crate) struct Node {
    pub(crate) v: NodeIndex,
    ghost low: { v.0 < 512 },
}

// The node, and the arcs along the edges: 11 where the graph isn't sound, 8 where it has no node v.
pub(crate) fn check_node(g: &CircuitDag, v: NodeIndex) -> Result<(Node, Arcs<'_>), Refusal>
    ensures { MatchResult result
        (λ p. Along g.now p.1.near.now p.1.far.now p.1.count × (p.0.v ≡ v) × (v.0 < size g.now) × (size g.now ≤ 512))
        (λ cause. check_node g.now v.0 ≡ Err cause) }
{
    let arcs = Arcs::along(g)?;
    if g.nodes.count <= usize::from(v.0) {
        return Err(Refusal::Absent);
    }
    Ok((Node { v }, arcs))
}

impl Node {
    // The marks with the node's own.
    pub(crate) fn marked(self, mut marks: [bool; 512]) -> [bool; 512]
        ensures { result ≡ set marks self.v.0 true }
    {
        marks[usize::from(self.v.0)] = true;
        marks
    }
}
