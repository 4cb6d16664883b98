// Circuits and queries from standard input, and what the library answers. The file stdout beside this crate was
// written from the original Rust's answers to the same circuits (README.md), in the same form: sets ascending,
// appended nodes of a layer ascending.
#![tactic(auto)]

ghost use Rattle.std.specs.Prelude.{◌≤◌, length};

use file::{Refusal, RegisterKey};
use graph::{CircuitDag, Commuting, End, NodeIndex, Registers};
use insertion::Loaded;
use std::io;
use walk::ParallelBlocks;

// The first n bytes, as many as there are, and the rest.
fn cut(bytes: &[u8], n: usize) -> (&[u8], &[u8])
    ensures { length result.1.now ≤ length bytes.now }
{
    bytes.split_at(n.min(bytes.len()))
}

// A list, which is a count and so many numbers, and the rest.
fn cut_list(bytes: &[u8]) -> (&[u8], &[u8])
    ensures { length result.1.now ≤ length bytes.now }
{
    match bytes.split_first() {
        Some((count, rest)) => cut(rest, usize::from(*count)),
        None => (bytes, bytes),
    }
}

// The first k entries of a list, and the end of the line.
fn print_first(rt: &impl Print, list: &[u16], k: usize) -> io::Result<()> {
    for v in &list[..k.min(list.len())] {
        print!(rt; " {v}")?;
    }
    println!(rt)
}

// A query's answer.
fn print_query<F: FnOnce(&mut [u16]) -> Result<usize, Refusal>>(
    rt: &impl Print,
    title: &str,
    query: F,
) -> io::Result<()>
    requires { F.IsAlwaysCallable query }
{
    let mut buffer = [0u16; 512];
    print!(rt; "{title}")?;
    match query(&mut buffer) {
        Ok(k) => print_first(rt, &buffer, k),
        Err(r) => println!(rt; " {r}"),
    }
}

// A set's members.
fn print_marks(rt: &impl Print, title: &str, marks: &[bool; 512]) -> io::Result<()> {
    print!(rt; "{title}")?;
    for (v, mark) in marks.iter().enumerate() {
        if *mark {
            print!(rt; " {v}")?;
        }
    }
    println!(rt)
}

// A map from qubit to node: each qubit and its node. 65535 is none, here and below, as the graph's arrays have it.
fn print_map(rt: &impl Print, title: &str, map: &[u16; 64]) -> io::Result<()> {
    print!(rt; "{title} map:")?;
    for (q, v) in map.iter().enumerate() {
        if *v != 65535 {
            print!(rt; " {q}>{v}")?;
        }
    }
    println!(rt)
}

fn print_all_node(rt: &impl Print, all: NodeIndex) -> io::Result<()> {
    print!(rt; "all-qubit:")?;
    if all.0 != 65535 {
        print!(rt; " {}", all.0)?;
    }
    println!(rt)
}

// The node of a key, which stands in two columns. No call of crate accessors, which would test the whole graph again at
// each of 1,024 keys: like every map here, this one is shown as the graph holds it.
fn node_of(r: &Registers, key: RegisterKey) -> Option<u16> {
    let i = (0..r.count.min(256)).find(|i| r.name[*i] == key.name && r.index[*i] == key.index)?;
    r.node.get(i).copied()
}

// How many entries, then those of names 0 to 3 with indices 0 to 255, ascending; the circuits have no others.
fn print_registers(rt: &impl Print, title: &str, r: &Registers) -> io::Result<()> {
    print!(rt; "{title} registers {}:", r.count)?;
    for name in 0..4u8 {
        for index in 0..256u16 {
            if let Some(v) = node_of(r, RegisterKey { name, index }) {
                print!(rt; " {name}.{index}>{v}")?;
            }
        }
    }
    println!(rt)
}

// A node's successors, predecessors and all nodes that block it.
fn print_node(rt: &impl Print, g: CircuitDag, v: NodeIndex) -> io::Result<()> {
    print_query(rt, "successors:", |lent| queries::successors(g, v, lent))?;
    print_query(rt, "predecessors:", |lent| {
        queries::blocking_predecessors(g, &[], v, lent)
    })?;
    print_query(rt, "blocked by:", |lent| {
        queries::execution_blocked(g, &[], v, lent)
    })
}

// Each node's kind, qubit form and label, then its queries. By number, since what a node keeps stands in columns. The
// cast keeps the value: v is below 512.
fn print_nodes(rt: &impl Print, g: CircuitDag) -> io::Result<()> {
    for v in 0..g.nodes.count.min(512) {
        let nodes = &g.nodes;
        println!(rt;
            "node {v}: {} {} {}",
            nodes.kind[v], nodes.form[v], nodes.label[v]
        )?;
        print_node(rt, g, NodeIndex(v as u16))?;
    }
    Ok(())
}

// Each node's block.
fn print_walk(rt: &impl Print, g: CircuitDag) -> io::Result<()> {
    let mut buffer = [0u16; 512];
    match walk::whole_walk(g, &mut buffer) {
        Ok(k) => {
            print!(rt; "blocks {k}:")?;
            print_first(rt, &buffer, g.nodes.count)
        }
        Err(r) => println!(rt; "blocks {r}"),
    }
}

// One end: its map, its all-qubit node, its block.
fn print_end(rt: &impl Print, title: &str, e: &End) -> io::Result<()> {
    print_map(rt, title, &e.node)?;
    print_all_node(rt, e.all)?;
    print_marks(rt, "block:", &e.block)
}

fn print_commuting(rt: &impl Print, c: &Commuting) -> io::Result<()> {
    print!(rt; "commuting:")?;
    print_first(rt, &c.list, c.count)
}

fn print_graph(rt: &impl Print, g: CircuitDag) -> io::Result<()> {
    print_nodes(rt, g)?;
    print_end(rt, "first", &g.first)?;
    print_end(rt, "last", &g.last)?;
    print_registers(rt, "first", &g.first_registers)?;
    print_registers(rt, "last", &g.last_registers)?;
    print_commuting(rt, &g.commuting)?;
    print_walk(rt, g)
}

// The set of the numbers of a list.
fn marks_of(list: &[u8]) -> [bool; 512] {
    let mut marks = [false; 512];
    for v in list {
        marks[usize::from(*v)] = true;
    }
    marks
}

// The numbers of a list, as many as there is room for.
fn numbers_of(list: &[u8]) -> [u16; 32] {
    let mut numbers = [0; 32];
    for (number, x) in numbers.iter_mut().zip(list) {
        *number = u16::from(*x);
    }
    numbers
}

// One step of the walk from two sets.
fn print_step(rt: &impl Print, g: CircuitDag, current: &[u8], executed: &[u8]) -> io::Result<()> {
    let mut walk = ParallelBlocks {
        current: marks_of(current),
        executed: marks_of(executed),
    };
    let mut buffer = [0u16; 512];
    let answer = walk.next(g, &mut buffer);
    print!(rt; "step:")?;
    match answer {
        Ok(Some(k)) => print_first(rt, &buffer, k)?,
        Ok(None) => println!(rt; " none")?,
        Err(r) => println!(rt; " {r}")?,
    }
    print_marks(rt, "executed:", &walk.executed)
}

// The queries at a node, with an executed list and a layer.
fn print_answers(
    rt: &impl Print,
    g: CircuitDag,
    v: NodeIndex,
    executed: &[u16],
    layer: &[u16],
) -> io::Result<()> {
    print_query(rt, "query, blocked by:", |lent| {
        queries::execution_blocked(g, executed, v, lent)
    })?;
    print_query(rt, "predecessors:", |lent| {
        queries::blocking_predecessors(g, executed, v, lent)
    })?;
    print_query(rt, "layer:", |lent| {
        queries::new_front_layer(g, executed, layer, v, lent)
    })
}

// The same, the lists being bytes, of which at most 32 are taken, into arrays: there is no heap.
fn print_queries(
    rt: &impl Print,
    g: CircuitDag,
    v: u8,
    executed: &[u8],
    layer: &[u8],
) -> io::Result<()> {
    let done = numbers_of(executed);
    let line = numbers_of(layer);
    let k = executed.len().min(32);
    let m = layer.len().min(32);
    print_answers(rt, g, NodeIndex(u16::from(v)), &done[..k], &line[..m])
}

// Each query is a node, the executed list, the layer and the walk's current nodes. A loop: what a query takes is known
// only when its three lists have been cut.
fn replay_queries(rt: &impl Print, g: CircuitDag, queries: &[u8]) -> io::Result<()> {
    let mut rest = queries;
    while let Some((v, lists)) = rest.split_first() {
        let (executed, lists) = cut_list(lists);
        let (layer, lists) = cut_list(lists);
        let (current, after) = cut_list(lists);
        print_queries(rt, g, *v, executed, layer)?;
        print_step(rt, g, current, executed)?;
        rest = after;
    }
    Ok(())
}

// By the byte of the item that says which; as an enum it would be read from that byte by the same test.
fn build(converted: bool, file: &[u8]) -> Loaded {
    if converted {
        return insertion::from_circuit(file);
    }
    insertion::load(file)
}

// An item: whether the file is converted or loaded, the file's length, the file, queries.
fn replay_item(rt: &impl Print, item: &[u8]) -> io::Result<()> {
    let [way, low, high, rest @ ..] = item else {
        return Ok(());
    };
    let size = u16::from_le_bytes([*low, *high]);
    let (file, queries) = cut(rest, usize::from(size));
    let x = build(*way == 1, file);
    match x.answer {
        Ok(()) => println!(rt; "circuit")?,
        Err(r) => println!(rt; "circuit {r}")?,
    }
    print_graph(rt, x.graph)?;
    replay_queries(rt, x.graph, queries)
}

// Each item stands behind its length. A loop over them and no Files: an item that ends early is still replayed, as far
// as it goes.
fn main(rt: HostRuntime) -> io::Result<()> {
    let mut input = [0; 65536];
    let mut rest = standard_io::read_file(&rt, &mut input);
    while let [low, high, items @ ..] = rest {
        let size = u16::from_le_bytes([*low, *high]);
        let (item, after) = cut(items, usize::from(size));
        replay_item(&rt, item)?;
        rest = after;
    }
    Ok(())
}
