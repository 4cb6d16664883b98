// A single insertion: the record's node, its links and its register maps, on the parts of a graph.
ghost use Rattle.std.specs.Prelude.{◌≡◌, true};
ghost use Rattle.graph.specs.Soundness.{sound};
ghost use Rattle.links.specs.Links.{rule_of};
ghost use Rattle.insertion.specs.Limits.{refused, insert_as, insert_by, insert_of};

use crate::Inserted;
use crate::assembling::assemble;
use crate::nodes::NodeLists;
use file::Refusal;
use graph::{CircuitDag, NodeIndex};
use links::LoadingRule;

// A refusal leaves the graph as it was. By returns of this, and no `?` in a function with a Result, as a load has: that was
// tried, and C's insertion then took 262,344 bytes of stack, where the bar is 256 KB (docs/SPEED.md, "Stack").
fn not_inserted(r: Refusal, g: CircuitDag) -> Inserted
    ensures { result ≡ refused r g }
{
    Inserted {
        answer: Err(r),
        graph: g,
    }
}

// Record i on a sound graph: 4, 12, 5, 6, 7.
fn insert_sound(rule: LoadingRule, i: usize, g: CircuitDag, part: &[u8]) -> Inserted
    requires { sound g ≡ true }
    ensures { result ≡ insert_as (rule_of rule) i g part.now }
{
    let s = match file::parse_record(part) {
        Ok(s) => s,
        Err(c) => return not_inserted(file::at_record(i, c), g),
    };
    // A cast: a sound graph has at most 512 nodes.
    let v = NodeIndex(g.nodes.count as u16);
    let x = links::link_node(rule, i, s.front, s.qubits, v, g.edges, g.first, g.last);
    if let Err(cause) = x.answer {
        return not_inserted(cause, g);
    }
    let r = registers::register_record(i, g.first_registers, g.last_registers, part, v);
    if let Err(cause) = r.answer {
        return not_inserted(cause, g);
    }
    let mut lists = NodeLists::of(g);
    lists.push(part);
    Inserted {
        answer: Ok(v),
        graph: assemble(lists, x, r),
    }
}

// Any bytes as a record on any graph: 11, then 4, 12, 5, 6, 7. A refusal returns the graph that came in.
#[tactic(auto, unfolding(crate::specs::Limits::insert_by))]
pub fn insert_by(rule: LoadingRule, g: CircuitDag, part: &[u8]) -> Inserted
    ensures { result ≡ insert_by rule g part.now }
{
    if graph::is_sound(g) {
        return insert_sound(rule, 0, g, part);
    }
    not_inserted(Refusal::Unsound, g)
}

// The same by document 01's rule: document 01's call, whose clause names no rule.
pub fn insert(g: CircuitDag, part: &[u8]) -> Inserted
    ensures { result ≡ insert_of g part.now }
{
    insert_by(LoadingRule::NearAll, g, part)
}
