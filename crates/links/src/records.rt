// The ends and edges of a list of records, and of one record on the ends and edges of a graph. No other part of an
// insertion reads them, so that a load makes them in a loop of their own.
ghost use Rattle.std.specs.Prelude.{◌≡◌, true, false, [], ◌+◌, ◌≤◌, ◌<◌, ltb, length};
ghost use Rattle.file.specs.Lists.{all_of};
ghost use Rattle.file.specs.Pairs.{pair_place};
ghost use Rattle.file.specs.Records.{refusal_from};
ghost use Rattle.graph.specs.Dag.{empty, no_end};
ghost use Rattle.graph.specs.Soundness.{named, if_present};
ghost use Rattle.links.specs.Ends.{EndFits, JoinedEnds};
ghost use Rattle.links.specs.Links.{rule_of, link_at};
ghost use Rattle.links.specs.Linking.{links_from, links_stopped, no_links, links_fit, links_kept, answered, link_record, link_node, link_records};

use crate::ends::{WorkingEnd, edges_pass, join_end};
use crate::numbers::Node;
use crate::others::{Others, add_edges};
use crate::{LinkedRecords, LoadingRule};
use file::{InvolvedQubits, Refusal};
use graph::{Edges, End, NodeIndex};

// Why record i of a file is not taken, whose bytes were refused with c: the refusal of its place, else c with its
// number. Only a record that was not parsed is asked, so that one that is taken is located once.
fn record_refusal(file: &[u8], i: usize, c: Refusal) -> Refusal
    ensures { result ≡ refusal_from (pair_place file.now i) c i }
{
    match file::locate_pair(file, i) {
        Err(r) => r,
        Ok(_) => file::at_record(i, c),
    }
}

// The refusal of the record after k accepted ones.
#[tactic(auto, unfolding(graph::specs::Dag::empty))]
fn links_stopped(k: usize, r: Refusal) -> LinkedRecords
    ensures { result ≡ links_stopped k r }
{
    LinkedRecords {
        accepted: k,
        answer: Err(r),
        edges: graph::no_edges(),
        first: graph::no_end(),
        last: graph::no_end(),
    }
}

// The refusal of a record as node v, which leaves the ends and edges as they were.
fn links_kept(v: NodeIndex, edges: Edges, first: End, last: End, r: Refusal) -> LinkedRecords
    ensures { result ≡ links_kept v edges first last r }
{
    LinkedRecords {
        accepted: usize::from(v.0),
        answer: Err(r),
        edges,
        first,
        last,
    }
}

// Whether an entry of the graph's arrays is absent (65535) or a node below n.
fn is_below(x: u16, n: usize) -> bool
    ensures { result ≡ if_present (λ u. ltb u n) x }
{
    x == 65535 || usize::from(x) < n
}

// Whether the end names only nodes below n.
fn names_below(e: &End, n: usize) -> bool
    ensures { result ≡ all_of (if_present (λ u. ltb u n)) (named e.now) }
{
    is_below(e.all.0, n) && e.node.iter().all(|u| is_below(*u, n))
}

// Whether the ends name only nodes below n, and there are no more edges than a graph may have.
fn links_fit(n: usize, edges: &Edges, first: &End, last: &End) -> bool
    ensures { result ≡ links_fit n edges.now first.now last.now }
{
    edges.count <= 2048 && names_below(first, n) && names_below(last, n)
}

// The edges and ends while records are taken, and room for the nodes that a record's node is joined with.
#[derive(Drop)]
struct Links {
    edges: Edges,
    first: WorkingEnd,
    last: WorkingEnd,
    others: Others,
    ghost room: { edges.count ≤ 2048 },
}

impl Links {
    #[tactic(auto, unfolding(graph::specs::Dag::empty))]
    fn new() -> Links
        ensures edges { result.edges ≡ empty.edges }
        ensures ends { (result.first ≡ no_end) × (result.last ≡ no_end) }
    {
        Links {
            edges: graph::no_edges(),
            first: WorkingEnd::new(),
            last: WorkingEnd::new(),
            others: Others::new(),
        }
    }

    // Those of a graph.
    fn of(edges: Edges, first: End, last: End) -> Links
        requires { (edges.count ≤ 2048) × EndFits 512 first × EndFits 512 last }
        ensures edges { result.edges ≡ edges }
        ensures ends { (result.first ≡ first) × (result.last ≡ last) }
    {
        Links {
            edges,
            first: WorkingEnd::of(first),
            last: WorkingEnd::of(last),
            others: Others::new(),
        }
    }

    // v joins both ends: at the back near is last, at the front first. front stays a bool, as in the file's record.
    fn join(&mut self, front: bool, qubits: InvolvedQubits, v: Node, rule: LoadingRule)
        ensures joined { JoinedEnds front (link_at (rule_of rule) front qubits v.number.0 self.old.first self.old.last)
            self.new.first self.new.last self.new.others }
        ensures edges { self.new.edges ≡ self.old.edges }
    {
        let (first, last) = (&mut self.first, &mut self.last);
        if front {
            return join_end(first, last, &mut self.others, qubits, v, rule);
        }
        join_end(last, first, &mut self.others, qubits, v, rule)
    }

    // Record i, at this end and with these qubits, as node k: 5, 6, or the ends and edges with it. The rule, the end and
    // the qubits come one by one, as link_node is handed them: a struct would be made and taken apart for each record.
    fn take(
        &mut self,
        rule: LoadingRule,
        i: usize,
        front: bool,
        qubits: InvolvedQubits,
        k: usize,
    ) -> Result<(), Refusal>
        ensures { answered k result self.new.edges self.new.first self.new.last
            ≡ link_record (rule_of rule) i front qubits (links_from k self.old.edges self.old.first self.old.last) }
    {
        let v = Node::at(k)?;
        self.join(front, qubits, v, rule);
        if edges_pass(self.edges.count, self.others.len(), qubits) {
            return Err(Refusal::TooManyEdges(i));
        }
        add_edges(&mut self.edges, front, v.number, &self.others);
        Ok(())
    }

    // .. of k nodes.
    fn into_linked(self, k: usize) -> LinkedRecords
        ensures { result ≡ links_from k self.edges self.first self.last }
    {
        LinkedRecords {
            accepted: k,
            answer: Ok(()),
            edges: self.edges,
            first: self.first.into_end(),
            last: self.last.into_end(),
        }
    }
}

// Record i, at this end and with these qubits, as node v, on the ends and edges of a graph with v nodes: 11 where an
// end names another node or there are too many edges, then 5, 6. A refusal leaves them as they were. It is handed
// qubits and no record (docs/DECISIONS.md, 8), and document 01's parts of a graph, which it hands back in LinkedRecords.
pub fn link_node(
    rule: LoadingRule,
    i: usize,
    front: bool,
    qubits: InvolvedQubits,
    v: NodeIndex,
    edges: Edges,
    first: End,
    last: End,
) -> LinkedRecords
    ensures { result ≡ link_node (rule_of rule) i front qubits v edges first last }
{
    let n = usize::from(v.0);
    if !links_fit(n, &edges, &first, &last) {
        return links_kept(v, edges, first, last, Refusal::Unsound);
    }
    // Links name only nodes below 512.
    if 512 <= n {
        return links_kept(v, edges, first, last, Refusal::TooManyNodes);
    }
    let mut links = Links::of(edges, first, last);
    match links.take(rule, i, front, qubits, n) {
        Ok(()) => links.into_linked(n + 1),
        Err(r) => links_kept(v, edges, first, last, r),
    }
}

// The file's records with these numbers, one after the other, as nodes 0, 1, 2, ..: each 2, 1, 8, 3 where the file has
// it not, then 4, 12, 5, 6.
pub fn link_records(rule: LoadingRule, file: &[u8], order: &[u16]) -> LinkedRecords
    ensures { result ≡ link_records (rule_of rule) file.now no_links order.now }
{
    let mut links = Links::new();
    for (k, number) in order.iter().enumerate() {
        let i = usize::from(*number);
        let r = match file::parse_record(file::part_of(file, i)) {
            Ok(r) => r,
            Err(c) => return links_stopped(k, record_refusal(file, i, c)),
        };
        if let Err(c) = links.take(rule, i, r.front, r.qubits, k) {
            return links_stopped(k, c);
        }
    }
    links.into_linked(order.len())
}
