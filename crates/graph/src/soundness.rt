// Is a handed-in graph sound: one pass over each part, but where the order of its edges or register keys does not show
// that they are distinct (docs/SPEED.md, "Handed-in graphs in the worst order").
ghost use Rattle.std.specs.Prelude.{◌≡◌, true, false, cond, ◌&&◌, ◌||◌, ℕ, ◌+◌, ◌*◌, ◌/◌, ◌%◌, ◌^◌, ◌≤◌, ◌<◌};
ghost use Rattle.std.specs.Prelude.{ltb, eqb, get_or, length};
ghost use Rattle.file.specs.Lists.{all_of, members};
ghost use Rattle.graph.specs.Dag.{edge, size};
ghost use Rattle.graph.specs.Soundness.{if_present, ascends, keys_distinct, counts_fit, ends_add_up, register_map_rule, sound};
ghost use Rattle.graph.specs.Checks.{operation_in, operates, slot_answer, places_fit, edge_fits, edges_fit, edges_differ, low_edge, end_fits, commuting_fits, key_in, is_repeated, entries_fit, parts_fit};

use crate::sets::members_below;
use crate::{CircuitDag, Commuting, Edges, End, Registers};
use file::RegisterKey;
use std::array;

// How many numbers the commuting list has room for. A call, since of an array that a field lends a proof has no length.
fn room_of(list: &[u16; 512]) -> usize
    ensures { (result ≡ 512) × (length list.now ≡ 512) }
{
    list.len()
}

// The counts are within the limits, and the ends add up to the nodes.
fn counts_fit(g: &CircuitDag) -> bool
    ensures value { result ≡ (counts_fit g.now && ends_add_up g.now) }
    ensures room { length g.now.commuting.list ≡ 512 }
{
    let room = room_of(&g.commuting.list);
    g.nodes.count <= 512
        && g.edges.count <= 2048
        && g.first_registers.count <= 256
        && g.last_registers.count <= 256
        && g.commuting.count <= room
        && g.backs <= g.nodes.count
        && g.nodes.count - g.backs == g.fronts
}

// The place's number among those within the ends: back places from 0 up, then front places from -1 down.
fn slot_of(place: i16, backs: usize, fronts: usize) -> Option<usize>
    requires { backs + fronts ≤ 512 }
    ensures { result ≡ slot_answer backs fronts place }
{
    match usize::try_from(place) {
        Ok(k) => (k < backs).then_some(k),
        Err(_) => {
            let k = usize::from((!place).unsigned_abs());
            (k < fronts).then_some(backs + k)
        }
    }
}

// The places lie within the ends, and no two nodes have the same.
fn places_fit(g: &CircuitDag) -> bool
    requires { (size g.now ≤ 512) × (g.now.backs + g.now.fronts ≡ size g.now) }
    ensures { result ≡ places_fit g.now }
{
    let mut taken = [false; 512];
    for place in &g.nodes.place[..g.nodes.count] {
        let Some(s) = slot_of(*place, g.backs, g.fronts) else {
            return false;
        };
        if taken[s] {
            return false;
        }
        taken[s] = true;
    }
    true
}

// A qubit operation: form All or Set, kind 0 or 5. No branch, so that the compiler takes many at a time.
fn is_operation(kind: u8, form: u8) -> bool
    ensures { result ≡ ((eqb form 1 || eqb form 2) && (eqb kind 0 || eqb kind 5)) }
{
    matches!(form, 1 | 2) & matches!(kind, 0 | 5)
}

// A graph within the limits, with a mark at each qubit operation: what edges and ends are held against.
#[derive(Drop)]
struct Operations<'a> {
    g: &'a CircuitDag,
    marks: [bool; 512],
    ghost few_nodes: { size g.now ≤ 512 },
    ghost few_edges: { g.now.edges.count ≤ 2048 },
    ghost known: { (v : ℕ) → get_or marks v false ≡ operation_in g.now.nodes v },
}

impl<'a> Operations<'a> {
    fn of(g: &'a CircuitDag) -> Operations<'a>
        requires { (size g.now ≤ 512) × (g.now.edges.count ≤ 2048) }
        ensures { result.g.now ≡ g.now }
    {
        let marks = array::from_fn(|v| is_operation(g.nodes.kind[v], g.nodes.form[v]));
        Operations { g, marks }
    }

    // x is a qubit operation of the graph.
    fn has(&self, x: u16) -> bool
        ensures { result ≡ operates self.now.g.now.nodes x }
    {
        let v = usize::from(x);
        v < self.g.nodes.count && self.marks[v]
    }

    // So is every member of a block of the graph. No branch on a mark.
    fn has_all(&self, block: &[bool; 512]) -> bool
        ensures { result ≡ all_of (operation_in self.now.g.now.nodes) (members block.now) }
    {
        block
            .iter()
            .zip(&self.marks)
            .fold(true, |fit, (member, mark)| fit & (!*member | *mark))
    }

    // So is an entry that may be absent.
    fn names(&self, x: u16) -> bool
        ensures { result ≡ if_present (operates self.now.g.now.nodes) x }
    {
        x == 65535 || self.has(x)
    }

    // So are all entries of an end's map.
    fn names_all(&self, node: &[u16]) -> bool
        ensures { result ≡ all_of (if_present (operates self.now.g.now.nodes)) node.now }
    {
        node.iter().all(|x| self.names(*x))
    }

    // An end names qubit operations of the graph, and its block holds nodes of the graph.
    fn end_fits(&self, e: &End) -> bool
        ensures { result ≡ end_fits self.now.g.now.nodes e.now }
    {
        self.names(e.all.0) && self.names_all(&e.node) && members_below(e.block, self.g.nodes.count)
    }

    // An edge joins two qubit operations of the graph, rises in place, and runs to no member of the first block.
    fn edge_fits(&self, from: u16, to: u16) -> bool
        ensures { result ≡ edge_fits self.now.g.now.nodes self.now.g.now.first.block (edge from to) }
    {
        let place = &self.g.nodes.place;
        let (f, t) = (usize::from(from), usize::from(to));
        self.has(from) && self.has(to) && place[f] < place[t] && !self.g.first.block[t]
    }

    // Every edge fits and no two are the same, for edges of which those with one older end and direction come in the
    // order of their newer ends, as insertion leaves them: a cell's stamp is the newer end of its last edge, plus 1.
    // One pass with 2 KB of stamps; where it says no, edges_differ decides. By the edge's
    // number, in all loops over edges: the definitions speak of edge i, and of the items of a zip of the two columns each
    // loop would have to show that they are its ends.
    fn edges_ascend(&self) -> bool
        ensures { result ≡ true → (edges_fit self.now.g.now && edges_differ self.now.g.now.edges) ≡ true }
    {
        let es = &self.g.edges;
        let mut stamps = [0u16; 1024];
        for i in 0..es.count {
            let (from, to) = (es.from[i], es.to[i]);
            if !self.edge_fits(from, to) {
                return false;
            }
            let cell = older_cell(from, to);
            let stamp = from.max(to) + 1;
            if stamp <= stamps[cell] {
                return false;
            }
            stamps[cell] = stamp;
        }
        true
    }

    // Every edge fits and no two are the same, whatever their order, by a bit for each pair of nodes. A remainder is below
    // 64, which a cast says as well as try_from, without a case that never comes.
    fn edges_differ(&self) -> bool
        ensures { result ≡ (edges_fit self.now.g.now && edges_differ self.now.g.now.edges) }
    {
        let es = &self.g.edges;
        let mut seen = [0u64; 4096];
        for i in 0..es.count {
            let (from, to) = (es.from[i], es.to[i]);
            if !self.edge_fits(from, to) {
                return false;
            }
            let cell = usize::from(from) * 512 + usize::from(to);
            let b = (cell % 64) as u32;
            let word = seen[cell / 64];
            if has_bit(word, b) {
                return false;
            }
            seen[cell / 64] = with_bit(word, b);
        }
        true
    }

    // Every edge fits and no two are the same. The edges of a built graph pass at the first look.
    fn all_edges_fit(&self) -> bool
        ensures { result ≡ (edges_fit self.now.g.now && edges_differ self.now.g.now.edges) }
    {
        self.edges_ascend() || self.edges_differ()
    }
}

// Bit b of a word.
fn has_bit(word: u64, b: u32) -> bool
    requires { b < 64 }
    ensures { result ≡ eqb (word / 2 ^ b % 2) 1 }
{
    (word >> b) % 2 == 1
}

// The word with bit b, which is clear.
fn with_bit(word: u64, b: u32) -> u64
    requires { (b < 64) × (word / 2 ^ b % 2 ≡ 0) }
    ensures { result ≡ word + 2 ^ b }
{
    word + (1u64 << b)
}

// A cell for the older node and the direction: different edges of one newer node have different cells.
fn older_cell(from: u16, to: u16) -> usize
    ensures { result ≡ cond (ltb to from) (2 * to + 1) (2 * from) }
{
    if to < from {
        2 * usize::from(to) + 1
    } else {
        2 * usize::from(from)
    }
}

// The commuting list ascends strictly, below n.
fn commuting_fits(c: &Commuting, n: usize) -> bool
    requires { c.now.count ≤ 512 }
    ensures { result ≡ commuting_fits n c.now }
{
    let list = &c.list[..c.count];
    ascends(list) && all_below(list, n)
}

// A list ascends strictly.
fn ascends(list: &[u16]) -> bool
    ensures { result ≡ ascends list.now }
{
    list.is_sorted_by(|a, b| a < b)
}

// The numbers of a list are below n, without a branch on an entry.
fn all_below(list: &[u16], n: usize) -> bool
    ensures { result ≡ all_of (λ (v : ℕ). ltb v n) list.now }
{
    list.iter().fold(true, |fit, v| fit & (usize::from(*v) < n))
}

// The entries of a register map within the limit.
#[derive(Drop)]
struct Entries<'a> {
    map: &'a Registers,
    ghost few: { map.now.count ≤ 256 },
}

impl<'a> Entries<'a> {
    // Keys are distinct, nodes below n.
    fn fit(&self, n: usize) -> bool
        ensures { result ≡ entries_fit n self.now.map.now }
    {
        all_below(&self.map.node[..self.map.count], n) && (self.keys_ascend() || self.keys_differ())
    }

    // The key of entry i. Crate registers has the same: one for both would be public, and so ask nothing of i, and of what
    // it gave past the end neither would have a use.
    fn key(&self, i: usize) -> RegisterKey
        requires { i < 256 }
        ensures { result ≡ key_in self.now.map.now i }
    {
        RegisterKey {
            name: self.map.name[i],
            index: self.map.index[i],
        }
    }

    // The keys ascend, as definitions in the order of their names leave them, and so are distinct: no table is needed.
    // Where this says no, keys_differ decides. By position, here and below: an entry stands in columns.
    fn keys_ascend(&self) -> bool
        ensures { result ≡ true → keys_distinct self.now.map.now ≡ true }
    {
        (0..self.map.count)
            .map(|i| self.key(i))
            .is_sorted_by(|a, b| a < b)
    }

    // The key of entry i stands before it.
    fn is_repeated(&self, i: usize) -> bool
        requires { i < 256 }
        ensures { result ≡ is_repeated self.now.map.now i }
    {
        let key = self.key(i);
        (0..i).any(|j| self.key(j) == key)
    }

    // The keys are distinct, whatever their order, by a table of cells: names that differ modulo 8, with indices below
    // 256, have cells of their own. Behind a free cell the key is new; behind a taken one the keys before it decide.
    // Crate registers counts cells so too: for one line in each, one call for both would be a public one of crate file.
    fn keys_differ(&self) -> bool
        ensures { result ≡ keys_distinct self.now.map.now }
    {
        let mut cells = [false; 2048];
        for i in 0..self.map.count {
            let key = self.key(i);
            let cell = (usize::from(key.name) * 256 + usize::from(key.index)) % 2048;
            if cells[cell] && self.is_repeated(i) {
                return false;
            }
            cells[cell] = true;
        }
        true
    }
}

// A map keeps the clauses on a register map of a graph with n nodes.
fn registers_fit(r: &Registers, n: usize) -> bool
    ensures { result ≡ register_map_rule n r.now }
{
    r.count <= 256 && Entries { map: r }.fit(n)
}

// .. of a map by value, for the crates above.
pub fn is_register_map(r: Registers, n: usize) -> bool
    ensures { result ≡ register_map_rule n r }
{
    registers_fit(&r, n)
}

// All but the counts and the places.
fn parts_fit(g: &CircuitDag) -> bool
    requires { counts_fit g.now ≡ true }
    ensures { result ≡ parts_fit g.now }
{
    let n = g.nodes.count;
    let operations = Operations::of(g);
    operations.all_edges_fit()
        && operations.has_all(&g.first.block)
        && operations.end_fits(&g.first)
        && operations.end_fits(&g.last)
        && commuting_fits(&g.commuting, n)
        && registers_fit(&g.first_registers, n)
        && registers_fit(&g.last_registers, n)
}

// "A handed-in graph is sound if ..": every clause holds. The counts come first, since the other loops run to them.
// Of a graph that is lent, so that no call copies its 16 KB.
pub(crate) fn is_sound_graph(g: &CircuitDag) -> bool
    ensures value { result ≡ sound g.now }
    ensures room { length g.now.commuting.list ≡ 512 }
{
    counts_fit(g) && places_fit(g) && parts_fit(g)
}

// The same of a graph that is handed over.
pub fn is_sound(g: CircuitDag) -> bool
    ensures { result ≡ sound g }
{
    is_sound_graph(&g)
}
