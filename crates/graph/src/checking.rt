// What a query on a handed-in graph begins with.
ghost use Rattle.std.specs.Prelude.{◌≡◌, OnOk};
ghost use Rattle.graph.specs.Soundness.{Counts, check_sound};

use crate::CircuitDag;
use crate::soundness::is_sound_graph;
use file::Refusal;

// 11 where the graph isn't sound; of one that is, its counts keep to their limits. Of a graph that is lent, as every call
// on one does first.
pub fn check_graph(g: &CircuitDag) -> Result<(), Refusal>
    ensures value { result ≡ check_sound g.now }
    ensures counts { OnOk result (Counts g.now) }
{
    if is_sound_graph(g) {
        return Ok(());
    }
    Err(Refusal::Unsound)
}

// The same of a graph that is handed over.
pub fn check_sound(g: CircuitDag) -> Result<(), Refusal>
    ensures value { result ≡ check_sound g }
    ensures counts { OnOk result (Counts g) }
{
    check_graph(&g)
}
