// Steps of the walk, and what a graph holds at single places, on the circuits of query_runs: steps with no buffer and
// with a long one, from the start and from a current node that is there or absent; nodes, qubits and register keys;
// each on a graph and on one that is not sound. On standard input each circuit file stands behind its length in two
// bytes, little-endian. Beside a step stand the sizes of its two sets and the start of the lent buffer, which held
// 9999. tools/graph_answers.py computes the same from document 01.
#![tactic(auto)]

use file::{Refusal, RegisterKey};
use graph::{CircuitDag, NodeIndex, Qubit};
use standard_io::{Entries, Files};
use std::io;
use walk::ParallelBlocks;

// What a node keeps.
fn probe_get(rt: &impl Print, g: CircuitDag, v: u16) -> io::Result<()> {
    match accessors::get(g, NodeIndex(v)) {
        Ok(n) => println!(rt; "get {v}: {} {} {} {}", n.kind, n.form, n.label, n.place),
        Err(r) => println!(rt; "get {v}: {r}"),
    }
}

// By a match, as is a step's answer below: Result and Option are the library's, so that no Display of ours can be
// theirs.
fn print_operation(rt: &impl Print, x: Result<Option<NodeIndex>, Refusal>) -> io::Result<()> {
    match x {
        Ok(Some(v)) => print!(rt; " {}", v.0),
        Ok(None) => print!(rt; " none"),
        Err(r) => print!(rt; " {r}"),
    }
}

// The first and the last operation that involve a qubit or a register key, and the end of the line.
fn print_operations(
    rt: &impl Print,
    first: Result<Option<NodeIndex>, Refusal>,
    last: Result<Option<NodeIndex>, Refusal>,
) -> io::Result<()> {
    print_operation(rt, first)?;
    print_operation(rt, last)?;
    println!(rt)
}

fn probe_qubit(rt: &impl Print, g: CircuitDag, q: u8) -> io::Result<()> {
    print!(rt; "qubit {q}:")?;
    print_operations(
        rt,
        accessors::first_operation_involving_qubit(g, Qubit(q)),
        accessors::last_operation_involving_qubit(g, Qubit(q)),
    )
}

fn probe_key(rt: &impl Print, g: CircuitDag, name: u8, index: u16) -> io::Result<()> {
    let key = RegisterKey { name, index };
    print!(rt; "key {name} {index}:")?;
    print_operations(
        rt,
        accessors::first_operation_involving_classical(g, key),
        accessors::last_operation_involving_classical(g, key),
    )
}

// What a graph holds at single places; v is the number after the last node.
fn probe_entries(rt: &impl Print, g: CircuitDag, v: u16) -> io::Result<()> {
    for node in [0, 2, v, 65535] {
        probe_get(rt, g, node)?;
    }
    for q in [0, 3, 63, 64, 255] {
        probe_qubit(rt, g, q)?;
    }
    for (name, index) in [(1, 0), (1, 1), (2, 0), (255, 65535)] {
        probe_key(rt, g, name, index)?;
    }
    Ok(())
}

// How many nodes a set has.
fn count_marks(marks: &[bool; 512]) -> usize {
    marks.iter().filter(|mark| **mark).count()
}

// A step: its answer, the sizes of its two sets afterwards, and the buffer.
fn probe_step(
    rt: &impl Print,
    g: CircuitDag,
    walk: &mut ParallelBlocks,
    buffer: &mut [u16],
) -> io::Result<()> {
    buffer.fill(9999);
    let answer = walk.next(g, &mut *buffer);
    print!(rt; "next buffer {}:", buffer.len())?;
    match answer {
        Ok(Some(k)) => print!(rt; " {k}")?,
        Ok(None) => print!(rt; " none")?,
        Err(r) => print!(rt; " {r}")?,
    }
    let current = count_marks(&walk.current);
    let executed = count_marks(&walk.executed);
    println!(rt; " {current} {executed}{}", Entries(buffer))
}

// A step with no buffer, and one with this buffer from where the first left the walk.
fn probe_steps(
    rt: &impl Print,
    g: CircuitDag,
    walk: &mut ParallelBlocks,
    buffer: &mut [u16],
) -> io::Result<()> {
    probe_step(rt, g, &mut *walk, &mut [0; 0])?;
    probe_step(rt, g, walk, buffer)
}

// The walk's first five steps.
fn probe_walk(rt: &impl Print, g: CircuitDag, buffer: &mut [u16]) -> io::Result<()> {
    let mut walk = ParallelBlocks::new();
    for _ in 0..5 {
        probe_steps(rt, g, &mut walk, &mut *buffer)?;
    }
    Ok(())
}

// A step from a state whose current set has node v alone, which may be absent.
fn probe_current(rt: &impl Print, g: CircuitDag, v: u16, buffer: &mut [u16]) -> io::Result<()> {
    let mut current = graph::no_marks();
    if let Some(mark) = current.get_mut(usize::from(v)) {
        *mark = true;
        let executed = graph::no_marks();
        let mut walk = ParallelBlocks { current, executed };
        probe_step(rt, g, &mut walk, buffer)?;
    }
    Ok(())
}

// The walk and the entries of one graph; v is the number after the last node.
fn probe(rt: &impl Print, g: CircuitDag, v: u16) -> io::Result<()> {
    let mut long = [0; 512];
    probe_walk(rt, g, &mut long)?;
    probe_current(rt, g, 0, &mut long)?;
    probe_current(rt, g, v, &mut long)?;
    probe_entries(rt, g, v)
}

// The graph of a circuit file, the empty one where it is refused, then the same with one back insertion too many,
// which is not sound. query_runs and step_runs have the same lines, each with a probe of its own: one function for both
// would be public, and would need a `requires` for the probe as a closure.
fn probe_load(rt: &impl Print, bytes: &[u8]) -> io::Result<()> {
    let loaded = insertion::load(bytes);
    let mut g = loaded.graph;
    if let Err(r) = loaded.answer {
        println!(rt; "load {r}")?;
    }
    // A graph's count is at most 512.
    probe(rt, g, u16::try_from(g.nodes.count).unwrap_or(65535))?;
    // In each program that tries such a graph: a function is longer.
    g.backs = g.backs.wrapping_add(1);
    println!(rt; "not sound")?;
    probe(rt, g, 0)
}

// A circuit file: its graph.
fn probe_file(rt: &impl Print, bytes: &[u8]) -> io::Result<()> {
    println!(rt; "file of {} bytes", bytes.len())?;
    probe_load(rt, bytes)
}

fn main(rt: HostRuntime) -> io::Result<()> {
    let mut input = [0; 65536];
    for file in Files(standard_io::read_file(&rt, &mut input)) {
        probe_file(&rt, file)?;
    }
    Ok(())
}
