// "In loading, each record's part of the file goes to the insertion as it is." The links, the register maps and the nodes
// are each made in a loop of their own, and the graph is put together once, at the end.
ghost use Rattle.std.specs.Prelude.{◌≡◌, true, ◌≤◌, ltb, length, Ok};
ghost use Rattle.file.specs.Lists.{all_of};
ghost use Rattle.file.specs.Pairs.{count_of, check_file};
ghost use Rattle.graph.specs.Dag.{empty};
ghost use Rattle.links.specs.Links.{rule_of};
ghost use Rattle.insertion.specs.Load.{loaded, insert_records, load_by};
ghost use Rattle.insertion.specs.Load.{load as load_of};

use crate::Loaded;
use crate::assembling::assemble;
use crate::nodes::list_nodes;
use file::Refusal;
use graph::CircuitDag;
use links::LoadingRule;

// A refused load gives the empty graph.
impl From<Result<CircuitDag, Refusal>> for Loaded {
    ghost from_gives = { λ x r. r ≡ loaded x };

    fn from(x: Result<CircuitDag, Refusal>) -> Loaded {
        match x {
            Ok(graph) => Loaded {
                answer: Ok(()),
                graph,
            },
            Err(r) => Loaded {
                answer: Err(r),
                graph: CircuitDag::new(),
            },
        }
    }
}

// The records with these numbers of a file that passed the check, one after the other, on the empty graph. A refusal by
// the register maps comes before one by the links: the maps are made of the records before it. By returns of what a load
// answers, and no `?` over a Result with the graph: out of that its 16 KB are moved once more at each step.
pub(crate) fn insert_in_order(rule: LoadingRule, file: &[u8], order: &[u16]) -> Loaded
    requires { (check_file file.now ≡ Ok tt) × (all_of (λ i. ltb i (count_of file.now)) order.now ≡ true)
        × (length order.now ≤ 512) }
    ensures { result ≡ insert_records (rule_of rule) file.now empty order.now }
{
    let x = registers::register_records(rule, file, order);
    if let Err(cause) = x.registered.answer {
        return Loaded::from(Err(cause));
    }
    if let Err(cause) = x.linked.answer {
        return Loaded::from(Err(cause));
    }
    Loaded {
        answer: Ok(()),
        graph: assemble(list_nodes(file, order), x.linked, x.registered),
    }
}

// A circuit file, or the first refusal, with the empty graph: 2, 1, 3, then per record 4, 12, 6, 7.
pub fn load_by(rule: LoadingRule, file: &[u8]) -> Loaded
    ensures { result ≡ load_by rule file.now }
{
    if let Err(cause) = file::check_file(file) {
        return Loaded::from(Err(cause));
    }
    let order = queries::in_file_order();
    insert_in_order(rule, file, &order[..file::record_count(file)])
}

// The same by document 01's rule: document 01's call, whose clause names no rule.
pub fn load(file: &[u8]) -> Loaded
    ensures { result ≡ load_of file.now }
{
    load_by(LoadingRule::NearAll, file)
}
