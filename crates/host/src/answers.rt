// Each answer of the crates below as two numbers, for C has no Result and no Option: 65535 is none. What an accepted call
// found is made a number first, and then goes as a count does. Insertions and loads differ as insertion's two types do.
ghost use Rattle.std.specs.Prelude.{◌≡◌};
ghost use Rattle.host.specs.Answers.{accepts, refuses, no_node, of_count, of_inserted, of_loaded, of_step, of_place, of_got, of_operation, no_operation, graph_loaded, graph_inserted};

use crate::{HostAnswer, HostDag, HostGraph, HostNode, HostPlace};
use accessors::KeptNode;
use file::{Place, Refusal};
use graph::{CircuitDag, NodeIndex, check_sound};
use insertion::{Inserted, Loaded};

fn accept(n: usize) -> HostAnswer
    ensures { result ≡ accepts n }
{
    HostAnswer {
        refusal: 0,
        value: n,
    }
}

impl From<Refusal> for HostAnswer {
    ghost from_gives = { λ x r. r ≡ refuses x };

    fn from(x: Refusal) -> HostAnswer {
        HostAnswer {
            refusal: usize::from(file::refusal_number(x)),
            value: file::refusal_value(x).unwrap_or(65535),
        }
    }
}

impl From<Result<usize, Refusal>> for HostAnswer {
    ghost from_gives = { λ x r. r ≡ of_count x };

    fn from(x: Result<usize, Refusal>) -> HostAnswer {
        match x {
            Ok(k) => accept(k),
            Err(c) => HostAnswer::from(c),
        }
    }
}

impl From<Result<NodeIndex, Refusal>> for HostAnswer {
    ghost from_gives = { λ x r. r ≡ of_inserted x };

    fn from(x: Result<NodeIndex, Refusal>) -> HostAnswer {
        HostAnswer::from(x.map(|v| usize::from(v.0)))
    }
}

impl From<Result<(), Refusal>> for HostAnswer {
    ghost from_gives = { λ x r. r ≡ of_loaded x };

    fn from(x: Result<(), Refusal>) -> HostAnswer {
        HostAnswer::from(x.map(|()| 0))
    }
}

impl From<Result<Option<usize>, Refusal>> for HostAnswer {
    ghost from_gives = { λ x r. r ≡ of_step x };

    fn from(x: Result<Option<usize>, Refusal>) -> HostAnswer {
        HostAnswer::from(x.map(|k| k.unwrap_or(65535)))
    }
}

impl From<Result<Option<NodeIndex>, Refusal>> for HostAnswer {
    ghost from_gives = { λ x r. r ≡ of_operation x };

    fn from(x: Result<Option<NodeIndex>, Refusal>) -> HostAnswer {
        HostAnswer::from(x.map(|o| o.map_or(65535, |v| usize::from(v.0))))
    }
}

impl From<Loaded> for HostGraph {
    ghost from_gives = { λ x r. r ≡ graph_loaded x };

    fn from(x: Loaded) -> HostGraph {
        let graph = HostDag::from(x.graph);
        HostGraph {
            answer: HostAnswer::from(x.answer),
            graph,
        }
    }
}

impl From<Inserted> for HostGraph {
    ghost from_gives = { λ x r. r ≡ graph_inserted x };

    fn from(x: Inserted) -> HostGraph {
        HostGraph {
            answer: HostAnswer::from(x.answer),
            graph: HostDag::from(x.graph),
        }
    }
}

impl From<Result<Place, Refusal>> for HostPlace {
    ghost from_gives = { λ x r. r ≡ of_place x };

    fn from(x: Result<Place, Refusal>) -> HostPlace {
        match x {
            Ok(place) => HostPlace {
                answer: accept(0),
                offset: place.offset,
                length: place.length,
            },
            Err(c) => HostPlace {
                answer: HostAnswer::from(c),
                offset: 0,
                length: 0,
            },
        }
    }
}

impl From<Result<KeptNode, Refusal>> for HostNode {
    ghost from_gives = { λ x r. r ≡ of_got x };

    fn from(x: Result<KeptNode, Refusal>) -> HostNode {
        match x {
            Ok(node) => HostNode {
                answer: accept(0),
                node,
            },
            Err(c) => HostNode {
                answer: HostAnswer::from(c),
                node: KeptNode::default(),
            },
        }
    }
}

// The refusal of what no graph has, a node number past 16 bits or a set of bytes that are no marks: 11, then 8.
pub(crate) fn no_node(g: CircuitDag) -> HostAnswer
    ensures { result ≡ no_node g }
{
    match check_sound(g) {
        Ok(()) => HostAnswer::from(Refusal::Absent),
        Err(c) => HostAnswer::from(c),
    }
}

// Nothing that a map has: 11, else none.
pub(crate) fn no_operation(g: CircuitDag) -> HostAnswer
    ensures { result ≡ no_operation g }
{
    let nothing: Result<Option<NodeIndex>, Refusal> = check_sound(g).map(|()| None);
    HostAnswer::from(nothing)
}
