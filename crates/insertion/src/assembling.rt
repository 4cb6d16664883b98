// The graph of its parts.
ghost use Rattle.std.specs.Prelude.{◌≡◌};
ghost use Rattle.insertion.specs.Parts.{assembled};

use crate::nodes::NodeLists;
use graph::CircuitDag;
use links::LinkedRecords;
use registers::Registered;

// The graph of the nodes, the ends with their edges, and the register maps.
pub(crate) fn assemble(n: NodeLists, x: LinkedRecords, r: Registered) -> CircuitDag
    ensures { result ≡ assembled n x r }
{
    CircuitDag {
        nodes: n.nodes,
        edges: x.edges,
        first: x.first,
        last: x.last,
        first_registers: r.first,
        last_registers: r.last,
        commuting: n.commuting,
        backs: n.backs,
        fronts: n.fronts,
    }
}
