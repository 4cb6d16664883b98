// The two ends of one insertion. near is the end of the insertion (last at the back, first at the front), far the
// other.
ghost use Rattle.std.specs.Prelude.{◌≡◌, true, false, cond, ◌&&◌, List, [], map, ℕ, ◌+◌, ◌≤◌, ◌<◌, ltb, length, set, replicate};
ghost use Rattle.file.specs.Lists.{any_of, add};
ghost use Rattle.graph.specs.Dag.{present, or_else, node, no_end};
ghost use Rattle.graph.specs.declared.End.{End};
ghost use Rattle.links.specs.Links.{rule_of, qubits, near_after, source, no_qubit, mapped, link_set, link_all, link_by, edge_bound};
ghost use Rattle.links.specs.Numbers.{number_of};
ghost use Rattle.links.specs.Ends.{entry_at, with_entry, IsOnly, EndFits, Joined};

use crate::LoadingRule;
use crate::numbers::{MapQubit, Node, Qubits};
use crate::others::Others;
use file::InvolvedQubits;
use graph::{End, NodeIndex};
use std::marker::Model;

// What is known of the nodes of a block: that it has none, that it has one alone, or that it has one or more.
#[derive(Clone, Copy)]
enum Members {
    Empty,
    Only(Node),
    Several,
}

// One end as insertions hold it. From qubit top on its map has no entry, and members is known of its block, so that few
// entries are read.
#[derive(Drop)]
pub(crate) struct WorkingEnd {
    end: End,
    top: usize,
    members: Members,
}

// Contracts see the end alone.
impl Model for WorkingEnd {
    ghost use Rattle.graph.specs.declared.End.{End};
    ghost use Rattle.links.specs.Ends.{Known};

    ghost Value = { End };

    ghost view = { λ w. w.end };

    ghost invariant = { λ w. Known w.end w.top w.members };
}

impl WorkingEnd {
    // An end without nodes.
    #[tactic(auto, using(crate::proofs::EndLaws::known_none))]
    pub(crate) fn new() -> WorkingEnd
        ensures { result ≡ no_end }
    {
        WorkingEnd {
            end: graph::no_end(),
            top: 0,
            members: Members::Empty,
        }
    }

    // An end of a graph, of whose block it is known only whether it has a node.
    pub(crate) fn of(end: End) -> WorkingEnd
        requires { EndFits 512 end }
        ensures { result ≡ end }
    {
        let members = if graph::has_member(end.block) {
            Members::Several
        } else {
            Members::Empty
        };
        WorkingEnd {
            end,
            top: 64,
            members,
        }
    }

    pub(crate) fn into_end(self) -> End
        ensures { result ≡ self }
    {
        self.end
    }

    fn all(&self) -> Option<Node>
        ensures { number_of result ≡ self.now.all.0 }
    {
        Node::named(self.end.all)
    }

    // The entry of qubit q in the map from qubit to node. Linking reads and writes such a map by a MapQubit, so that a
    // node handed over as a qubit is a type error.
    fn node_at(&self, q: MapQubit) -> Option<Node>
        ensures { number_of result ≡ entry_at self.now.node q.number }
    {
        Node::named(NodeIndex(self.end.node[q.index()]))
    }

    // The entry of qubit q becomes v.
    fn set_node(&mut self, q: MapQubit, v: Node)
        ensures { self.new ≡ record self.old { node = with_entry self.old.node q.number v.number } }
    {
        let i = q.index();
        self.end.node[i] = v.number.0;
        // A branch, and no max: a number that is written for each qubit is waited for at the next.
        if self.top <= i {
            self.top = i + 1;
        }
    }

    // The source, where there is one, leaves the block, and v joins it.
    fn replace(&mut self, source: Option<Node>, v: Node)
        ensures { self.new ≡ record self.old {
          block = set (cond (present (number_of source)) (set self.old.block (number_of source) false) self.old.block) v.number.0 true;
        } }
    {
        if let Some(u) = source {
            self.end.block[u.index()] = false;
        }
        self.end.block[v.index()] = true;
        self.members = Members::Several;
    }

    // v joins the block.
    fn join_block(&mut self, v: Node)
        ensures { self.new ≡ record self.old { block = set self.old.block v.number.0 true } }
    {
        self.end.block[v.index()] = true;
        self.members = Members::Several;
    }

    // "lastAll becomes v; the last block becomes {v}".
    fn keep_only(&mut self, v: Node)
        ensures { self.new ≡ record self.old { all = v.number; block = set (replicate 512 false) v.number.0 true } }
    {
        clear_block(&mut self.end.block, self.members);
        self.end.block[v.index()] = true;
        self.end.all = v.number;
        self.members = Members::Only(v);
    }

    // "firstAll becomes v if absent; v joins the first block if that is empty".
    fn admit(&mut self, v: Node)
        ensures { self.new ≡ record self.old {
          all = node (or_else self.old.all.0 v.number.0);
          block = cond (any_of (λ b. b) self.old.block) self.old.block (set self.old.block v.number.0 true);
        } }
    {
        if self.all().is_none() {
            self.end.all = v.number;
        }
        if let Members::Empty = self.members {
            self.end.block[v.index()] = true;
            self.members = Members::Several;
        }
    }

    // Whether the map has a qubit. 65535 here and below, where the array of the graph is gone over entry by entry.
    fn has_qubit(&self) -> bool
        ensures { result ≡ any_of present self.now.node }
    {
        self.end.node[..self.top].iter().any(|u| *u != 65535)
    }

    // Every node in the map is joined with v, and its qubits map to v. others is empty before, so that 64 entries find
    // room.
    fn map_all(&mut self, v: Node, others: &mut Others)
        requires { others.old ≡ [] }
        ensures nodes { self.new ≡ record self.old { node = map (λ (u : ℕ). cond (present u) v.number.0 u) self.old.node } }
        ensures joined { others.new ≡ mapped self.old.node [] }
    {
        map_to(&mut self.end.node[..self.top], v.number, others);
    }
}

// The block, of 512 marks as in graph's sets, loses its nodes. Where it is known to have one alone, that one is taken out, else the whole is cleared.
fn clear_block(block: &mut [bool; 512], members: Members)
    requires { IsOnly members block.old }
    ensures { block.new ≡ replicate 512 false }
{
    match members {
        Members::Only(u) => block[u.index()] = false,
        _ => *block = [false; 512],
    }
}

// The entries with a node become v, and their nodes join the others. That these are none before is asked here and in
// the three functions that lead here. An Others that each record makes and returns was tried, which asks nothing: 512
// all-qubit pulses then loaded 1.5 to 1.8 times as fast as the original's, where the bar is 3 and so it is 3.4.
fn map_to(entries: &mut [u16], v: NodeIndex, others: &mut Others)
    requires few { length entries.old ≤ 64 }
    requires none { others.old ≡ [] }
    ensures nodes { entries.new ≡ map (λ (u : ℕ). cond (present u) v.0 u) entries.old }
    ensures joined { others.new ≡ mapped entries.old [] }
{
    for u in entries.iter_mut() {
        if *u != 65535 {
            let old = NodeIndex(*u);
            *u = v.0;
            others.add(old);
        }
    }
}

// What a new qubit's entry at the far end becomes: the rule's all-qubit node, else v.
fn fresh_entry(rule: LoadingRule, near: &WorkingEnd, far: &WorkingEnd, v: Node) -> Node
    ensures { result.number.0 ≡ or_else (rule_of rule near.now far.now) v.number.0 }
{
    let all = match rule {
        LoadingRule::NearAll => near.all(),
        LoadingRule::FarAll => far.all(),
    };
    all.unwrap_or(v)
}

// How many qubits a mask has. A cast: at most 64, and usize has no From of a u32.
fn qubit_count(mask: u64) -> usize
    ensures { result ≡ length (qubits mask) }
{
    mask.count_ones() as usize
}

// The most edges that a record with these qubits adds: the count of a Set's qubits bounds them.
fn edge_bound(qubits: InvolvedQubits) -> usize
    ensures { result ≡ edge_bound qubits }
{
    match qubits {
        InvolvedQubits::None => 0,
        InvolvedQubits::All => 64,
        InvolvedQubits::Set(mask) => qubit_count(mask),
    }
}

// Whether the edges pass 2,048 with the k new ones of a record with these qubits. The bound on k decides wherever it
// leaves room; a mask has at most 64 qubits, so that they are counted near the limit only.
pub(crate) fn edges_pass(edges: usize, k: usize, qubits: InvolvedQubits) -> bool
    requires { (edges ≤ 2048) × (k ≤ edge_bound qubits) }
    ensures { result ≡ ltb 2048 (edges + k) }
{
    if edges <= 1984 {
        return false;
    }
    if edges + edge_bound(qubits) <= 2048 {
        return false;
    }
    2048 < edges + k
}

// near, far and others stand as three parameters in what follows: methods of a struct of three `&mut` would name them by
// nested pairs of what it leaves, and would have to say besides that each still refers to the same value.
// "Set, each qubit q": a qubit that is new at the near end becomes fresh at the far end. all is the near end's all-qubit
// node, which no qubit changes: it is read once a record.
fn link_qubit(
    near: &mut WorkingEnd,
    far: &mut WorkingEnd,
    others: &mut Others,
    q: MapQubit,
    all: Option<Node>,
    fresh: Node,
    v: Node,
)
    requires { (length others.old < 64) × (number_of all ≡ near.old.all.0) }
    ensures near { near.new ≡ near_after near.old q.number.0 v.number.0 }
    ensures far { far.new ≡ record far.old {
      node = cond (present (entry_at near.old.node q.number)) far.old.node (set far.old.node q.number.0 fresh.number.0);
    } }
    ensures others { others.new ≡ cond (present (source near.old q.number.0)) (add (source near.old q.number.0) others.old) others.old }
{
    let old = near.node_at(q);
    let source = old.or(all);
    near.set_node(q, v);
    near.replace(source, v);
    if let Some(u) = source {
        others.add(u.number);
    }
    if old.is_none() {
        far.set_node(q, fresh);
    }
}

// v joins both ends as a Set.
fn join_set(
    near: &mut WorkingEnd,
    far: &mut WorkingEnd,
    others: &mut Others,
    mask: u64,
    v: Node,
    rule: LoadingRule,
)
    requires { others.old ≡ [] }
    ensures { Joined (link_set (rule_of rule) mask v.number.0 near.old far.old) near.new far.new others.new }
{
    let all = near.all();
    let fresh = fresh_entry(rule, &*near, &*far, v);
    for q in Qubits::of(mask) {
        link_qubit(near, far, others, q, all, fresh, v);
    }
    if others.len() == 0 {
        far.join_block(v);
    }
}

// Whether both maps are empty.
fn both_empty(near: &WorkingEnd, far: &WorkingEnd) -> bool
    ensures { result ≡ (no_qubit near.now && no_qubit far.now) }
{
    !near.has_qubit() && !far.has_qubit()
}

// v joins both ends as All.
fn join_all(near: &mut WorkingEnd, far: &mut WorkingEnd, others: &mut Others, v: Node)
    requires { others.old ≡ [] }
    ensures { Joined (link_all v.number.0 near.old far.old) near.new far.new others.new }
{
    let empty = both_empty(&*near, &*far);
    near.keep_only(v);
    far.admit(v);
    if empty {
        let zero = MapQubit::zero();
        near.set_node(zero, v);
        far.set_node(zero, v);
        return;
    }
    near.map_all(v, others);
}

// v joins both ends by the qubits that it involves.
pub(crate) fn join_end(
    near: &mut WorkingEnd,
    far: &mut WorkingEnd,
    others: &mut Others,
    qubits: InvolvedQubits,
    v: Node,
    rule: LoadingRule,
)
    ensures { Joined (link_by qubits (rule_of rule) v.number.0 near.old far.old) near.new far.new others.new }
{
    others.clear();
    match qubits {
        InvolvedQubits::None => {}
        InvolvedQubits::All => join_all(near, far, others, v),
        InvolvedQubits::Set(mask) => join_set(near, far, others, mask, v, rule),
    }
}
