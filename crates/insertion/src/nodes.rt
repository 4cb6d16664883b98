// "A node keeps kind, qubit form, label and place", and the commuting list.
ghost use Rattle.std.specs.Prelude.{◌≡◌, cond, ◌||◌, ◌&&◌, ◌+◌, ◌<◌, ◌≤◌, eqb, length, set};
ghost use Rattle.file.specs.Records.{defines};
ghost use Rattle.graph.specs.Dag.{empty, append_node};
ghost use Rattle.insertion.specs.Insertion.{place_after, commutes, node_of};
ghost use Rattle.insertion.specs.Parts.{node_lists, node_after, nodes_after};

use graph::{CircuitDag, Commuting, NodeIndex, Nodes};

// The nodes, the commuting list and the counts of insertions. That they have room stands in what push and its functions
// ask, and in no ghost field: specs/Parts.antt makes these lists of any graph, and those of an unsound one have no
// bounds.
#[derive(Clone, Copy)]
pub(crate) struct NodeLists {
    pub nodes: Nodes,
    pub commuting: Commuting,
    pub backs: usize,
    pub fronts: usize,
}

impl NodeLists {
    // Those of the empty graph.
    #[tactic(auto, unfolding(graph::specs::Dag::empty))]
    fn new() -> NodeLists
        ensures { result ≡ node_lists empty }
    {
        NodeLists {
            nodes: graph::no_nodes(),
            commuting: graph::no_commuting(),
            backs: 0,
            fronts: 0,
        }
    }

    // Those of a graph.
    pub(crate) fn of(g: CircuitDag) -> NodeLists
        ensures { result ≡ node_lists g }
    {
        NodeLists {
            nodes: g.nodes,
            commuting: g.commuting,
            backs: g.backs,
            fronts: g.fronts,
        }
    }

    // The record as the next node.
    pub(crate) fn push(&mut self, part: &[u8])
        requires { (self.old.nodes.count < 512) × (self.old.commuting.count < 512) × (self.old.backs < 512) × (self.old.fronts < 512) }
        ensures { self.new ≡ node_after part.now self.old }
    {
        // A cast: there are fewer than 512 nodes.
        let v = NodeIndex(self.nodes.count as u16);
        let place = self.take_place(file::is_front(part));
        put_node(&mut self.nodes, part, place);
        put_commuting(&mut self.commuting, part, v);
    }

    // One insertion more at this end, and its place: k - 1 for the k-th at the back, -k at the front. Casts: no end has more than 512.
    fn take_place(&mut self, front: bool) -> i16
        requires { (self.old.backs < 512) × (self.old.fronts < 512) }
        ensures place { result ≡ place_after front (cond front self.old.fronts self.old.backs) }
        ensures counted { self.new ≡ record self.old {
          backs = cond front self.old.backs (self.old.backs + 1);
          fronts = cond front (self.old.fronts + 1) self.old.fronts;
        } }
    {
        if front {
            self.fronts += 1;
            return -(self.fronts as i16);
        }
        self.backs += 1;
        (self.backs - 1) as i16
    }
}

// The next node keeps the record's kind, qubit form and label, and its place.
fn put_node(nodes: &mut Nodes, part: &[u8], place: i16)
    requires { nodes.old.count < 512 }
    ensures { nodes.new ≡ append_node nodes.old (node_of part.now place) }
{
    let v = nodes.count;
    nodes.kind[v] = file::byte_at(part, 1);
    nodes.form[v] = file::byte_at(part, 2);
    nodes.label[v] = file::record_label(part);
    nodes.place[v] = place;
    nodes.count = v + 1;
}

// Kinds 1 to 4, and records with both forms None, join the commuting list.
fn is_commuting(kind: u8, form: u8, register: u8) -> bool
    ensures { result ≡ (defines kind || (eqb form 0 && eqb register 0)) }
{
    match kind {
        1..=4 => true,
        _ => form == 0 && register == 0,
    }
}

// Node v behind the others of the commuting list, if it joins.
fn put_commuting(list: &mut Commuting, part: &[u8], v: NodeIndex)
    requires { list.old.count < 512 }
    ensures { list.new ≡ record {
      count = cond (commutes part.now) (list.old.count + 1) list.old.count;
      list = cond (commutes part.now) (set list.old.list list.old.count v.0) list.old.list;
    } }
{
    let kind = file::byte_at(part, 1);
    let form = file::byte_at(part, 2);
    let register = file::byte_at(part, 11);
    if is_commuting(kind, form, register) {
        list.list[list.count] = v.0;
        list.count += 1;
    }
}

// The file's records with these numbers, one after the other, as nodes 0, 1, 2, ..
pub(crate) fn list_nodes(file: &[u8], order: &[u16]) -> NodeLists
    requires { length order.now ≤ 512 }
    ensures { result ≡ nodes_after file.now (node_lists empty) order.now }
{
    let mut lists = NodeLists::new();
    for i in order {
        lists.push(file::part_of(file, usize::from(*i)));
    }
    lists
}
