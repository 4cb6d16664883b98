// The distinct nodes that the node of a record is joined with, and the edges to them.
ghost use Rattle.std.specs.Prelude.{◌≡◌, List, [], map, ℕ, ◌+◌, ◌≤◌, ◌<◌, length, take};
ghost use Rattle.file.specs.Lists.{member, add};
ghost use Rattle.graph.specs.Dag.{with_edges};
ghost use Rattle.links.specs.Links.{link};
ghost use Rattle.links.specs.Ends.{with_edge};

use graph::{Edges, NodeIndex};
use std::marker::Model;

// At most 64 nodes, in the order in which they came: an array with its count, since the library has no heap and stands on
// std alone. report's Writer is one too, which keeps zeros behind its text and hands both out: of a type for both, public
// and below both, it would have to say that besides.
#[derive(Drop)]
pub(crate) struct Others {
    node: [u16; 64],
    count: usize,
}

impl Model for Others {
    ghost Value = { List ℕ };

    ghost view = { λ o. take o.count o.node };

    ghost invariant = { λ o. o.count ≤ 64 };
}

impl Others {
    pub(crate) fn new() -> Others
        ensures { result ≡ [] }
    {
        Others {
            node: [0; 64],
            count: 0,
        }
    }

    pub(crate) fn clear(&mut self)
        ensures { self.new ≡ [] }
    {
        self.count = 0;
    }

    pub(crate) fn len(&self) -> usize
        ensures counted { result ≡ length self.now }
        ensures few { result ≤ 64 }
    {
        self.count
    }

    // The node s joins them, unless it is among them. It is put behind them first, where a search that finds no other ends:
    // so the search waits for no count, which the record's qubits change one after the other.
    pub(crate) fn add(&mut self, s: NodeIndex)
        requires { length self.old < 64 }
        ensures { self.new ≡ add s.0 self.old }
    {
        self.node[self.count] = s.0;
        for (i, u) in self.node.iter().enumerate() {
            if *u == s.0 {
                if i == self.count {
                    self.count += 1;
                }
                return;
            }
        }
    }
}

// Edge number `at` joins u and v: into v at the back, out of v at the front.
fn put_edge(edges: &mut Edges, at: usize, front: bool, v: NodeIndex, u: u16)
    requires { at < 2048 }
    ensures { edges.new ≡ with_edge edges.old at (link front v.0 u) }
{
    let (from, to) = if front { (v.0, u) } else { (u, v.0) };
    edges.from[at] = from;
    edges.to[at] = to;
}

// The edges of v with the others, behind those that stand.
pub(crate) fn add_edges(edges: &mut Edges, front: bool, v: NodeIndex, others: &Others)
    requires { edges.old.count + length others.now ≤ 2048 }
    ensures { edges.new ≡ with_edges edges.old (map (link front v.0) others.now) }
{
    let count = edges.count;
    for (i, u) in others.node[..others.count].iter().enumerate() {
        put_edge(edges, count + i, front, v, *u);
    }
    edges.count = count + others.count;
}
