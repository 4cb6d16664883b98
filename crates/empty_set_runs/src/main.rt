// Records without a qubit (K2): files loaded, converted, and their records inserted one by one, then the first record on a graph that is not sound.
// On standard input each file stands behind its length in two bytes, little-endian. Behind each answer stand the graph's counts of nodes, edges and
// register entries, since a refusal leaves the graph or gives the empty one. tools/graph_answers.py computes the same from the documents.
#![tactic(auto)]

use graph::CircuitDag;
use insertion::Loaded;
use standard_io::Files;
use std::io;

// The graph's counts, and the end of the line.
fn print_counts(rt: &impl Print, g: CircuitDag) -> io::Result<()> {
    println!(rt;
        ", nodes {} edges {} entries {} {}",
        g.nodes.count, g.edges.count, g.first_registers.count, g.last_registers.count
    )
}

fn print_loaded(rt: &impl Print, title: &str, x: Loaded) -> io::Result<()> {
    match x.answer {
        Ok(()) => print!(rt; "{title} accepted")?,
        Err(r) => print!(rt; "{title} {r}")?,
    }
    print_counts(rt, x.graph)
}

// One insertion; the graph that it returns.
fn insert_one(rt: &impl Print, g: CircuitDag, part: &[u8]) -> io::Result<CircuitDag> {
    let x = insertion::insert(g, part);
    match x.answer {
        Ok(v) => print!(rt; "insert node {}", v.0)?,
        Err(r) => print!(rt; "insert {r}")?,
    }
    print_counts(rt, x.graph)?;
    Ok(x.graph)
}

// The file's records, one after the other, by their numbers: both_ends_runs has such a loop too, and says why. There an
// insertion has a way, and a refusal alone is printed: one loop for both would take the insertion as a closure, for
// which a public function would need a `requires`.
fn insert_each(rt: &impl Print, file: &[u8]) -> io::Result<CircuitDag> {
    let mut g = CircuitDag::new();
    for i in 0..file::record_count(file) {
        g = insert_one(rt, g, file::part_of(file, i))?;
    }
    Ok(g)
}

fn print_file(rt: &impl Print, file: &[u8]) -> io::Result<()> {
    println!(rt; "file of {} bytes", file.len())?;
    print_loaded(rt, "load", insertion::load(file))?;
    print_loaded(rt, "from_circuit", insertion::from_circuit(file))?;
    let mut g = insert_each(rt, file)?;
    // One back insertion too many: the graph is not sound. In each program that tries one: a function is longer.
    g.backs = g.backs.wrapping_add(1);
    insert_one(rt, g, file::part_of(file, 0))?;
    Ok(())
}

fn main(rt: HostRuntime) -> io::Result<()> {
    let mut input = [0; 65536];
    for file in Files(standard_io::read_file(&rt, &mut input)) {
        print_file(&rt, file)?;
    }
    Ok(())
}
