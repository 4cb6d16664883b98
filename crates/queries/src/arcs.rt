// The edges of a graph as arcs, to be gone over in either direction.
ghost use Rattle.queries.specs.Marks.{EndsBelow};

use file::Refusal;
use graph::{CircuitDag, check_graph};

// Arc i leads from node far[i] to node near[i], both below 512: along the edges, or against them. The graph's arrays
// with its count, as the graph has them: the definitions of the passes (Swept, Reaching, Closed) speak of arrays and a
// count, so that slices cut to it would have to be set against the graph's arrays again in the laws of every query.
#[derive(Clone, Copy)]
pub struct Arcs<'a> {
    pub near: &'a [u16; 2048],
    pub far: &'a [u16; 2048],
    pub count: usize,
    ghost below: { EndsBelow near.now far.now count },
}

impl<'a> Arcs<'a> {
    ghost use Rattle.std.specs.Prelude.{◌≡◌, ◌<◌, get_or, MatchResult, OnOk, Err};
    ghost use Rattle.graph.specs.Soundness.{check_sound, Counts};
    ghost use Rattle.queries.specs.Reach.{Reaching, Along};

    // The arcs that lead as a graph's edges do: 11 where the graph isn't sound, as an end may then be no node.
    pub fn along(g: &'a CircuitDag) -> Result<Arcs<'a>, Refusal>
        ensures value { MatchResult result (λ arcs. Along g.now arcs.near.now arcs.far.now arcs.count)
            (λ cause. check_sound g.now ≡ Err cause) }
        ensures counts { OnOk result (Counts g.now) }
    {
        check_graph(g)?;
        Ok(Arcs {
            near: &g.edges.to,
            far: &g.edges.from,
            count: g.edges.count,
        })
    }

    // The arcs that lead the other way.
    pub fn reversed(self) -> Arcs<'a>
        ensures near { result.near.now ≡ self.entry.far.now }
        ensures far { result.far.now ≡ self.entry.near.now }
        ensures count { result.count ≡ self.entry.count }
    {
        Arcs {
            near: self.far,
            far: self.near,
            count: self.count,
        }
    }

    // The nodes that arc i leads to and from.
    pub(crate) fn ends(&self, i: usize) -> (usize, usize)
        requires { i < self.now.count }
        ensures near { result.0 ≡ get_or self.now.near.now i 0 }
        ensures far { result.1 ≡ get_or self.now.far.now i 0 }
        ensures low { (result.0 < 512) × (result.1 < 512) }
    {
        (usize::from(self.near[i]), usize::from(self.far[i]))
    }

    // The near ends of the arcs whose far end is chosen. By the arc's number, like all passes over arcs: `ends` says of
    // a number that the ends are below 512, which of the items of a zip each pass would have to show, and a pass down
    // needs the number.
    pub fn reached(&self, chosen: &[bool; 512]) -> [bool; 512]
        ensures { Reaching self.now.far.now self.now.near.now self.now.count chosen.now result }
    {
        let mut found = [false; 512];
        for i in 0..self.count {
            let (near, far) = self.ends(i);
            found[near] |= chosen[far];
        }
        found
    }
}
