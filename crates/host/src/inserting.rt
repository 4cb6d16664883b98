// The empty graph, the load of a file, a single insertion, each in either way, and soundness.
ghost use Rattle.std.specs.Prelude.{◌≡◌};
ghost use Rattle.graph.specs.Dag.{empty};
ghost use Rattle.links.specs.declared.LoadingRule.TheVariants.{FarAll};
ghost use Rattle.insertion.specs.Load.{load_by, load};
ghost use Rattle.host.specs.Answers.{graph_loaded, inserted_into, inserted_by};
ghost use Rattle.host.specs.Marks.{host_of, host_sound};

use crate::crossing::{dag_of, is_dag};
use crate::{HostAnswer, HostDag, HostGraph};
use file::Refusal;
use graph::CircuitDag;
use links::LoadingRule;

#[unsafe(no_mangle)]
pub extern "C" fn sawhekonu_new() -> HostDag
    ensures { result ≡ host_of empty }
{
    let graph = CircuitDag::new();
    HostDag::from(graph)
}

#[unsafe(no_mangle)]
pub extern "C" fn sawhekonu_load(file: &[u8]) -> HostGraph
    ensures { result ≡ graph_loaded (load file.now) }
{
    HostGraph::from(insertion::load_by(LoadingRule::NearAll, file))
}

#[unsafe(no_mangle)]
pub extern "C" fn sawhekonu_load_both_ends(file: &[u8]) -> HostGraph
    ensures { result ≡ graph_loaded (load_by FarAll file.now) }
{
    HostGraph::from(insertion::load_by(LoadingRule::FarAll, file))
}

// The graph after a record.
fn insert_record(rule: LoadingRule, dag: HostDag, part: &[u8]) -> HostGraph
    ensures { result ≡ inserted_by rule dag part.now }
{
    if !is_dag(&dag) {
        return HostGraph {
            answer: HostAnswer::from(Refusal::Unsound),
            graph: dag,
        };
    }
    HostGraph::from(insertion::insert_by(rule, dag_of(dag), part))
}

#[unsafe(no_mangle)]
pub extern "C" fn sawhekonu_insert(dag: HostDag, part: &[u8]) -> HostGraph
    ensures { result ≡ inserted_into dag part.now }
{
    insert_record(LoadingRule::NearAll, dag, part)
}

#[unsafe(no_mangle)]
pub extern "C" fn sawhekonu_insert_both_ends(dag: HostDag, part: &[u8]) -> HostGraph
    ensures { result ≡ inserted_by FarAll dag part.now }
{
    insert_record(LoadingRule::FarAll, dag, part)
}

#[unsafe(no_mangle)]
pub extern "C" fn sawhekonu_is_sound(dag: HostDag) -> bool
    ensures { result ≡ host_sound dag }
{
    if !is_dag(&dag) {
        return false;
    }
    graph::is_sound(dag_of(dag))
}
