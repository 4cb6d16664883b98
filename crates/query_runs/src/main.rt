// Schedules, queries, lists, walks, chains and conversions on several circuits, each with buffers that are too short, one
// too short and long, on nodes that are there and absent, and on a graph that is not sound; and on files that are refused
// for each cause. On standard input each circuit file stands behind its length in two bytes, little-endian. Beside each
// answer stands the start of the lent buffer, which held 9999. tools/graph_answers.py computes the same from document 01.
#![tactic(auto)]

use file::Refusal;
use graph::{CircuitDag, NodeIndex};
use standard_io::{Answer, Files};
use std::io;

// What a call answers, and the buffer that it is lent, which holds 9999.
fn probe_call<F: FnOnce(&mut [u16]) -> Result<usize, Refusal>>(
    rt: &impl Print,
    title: &str,
    buffer: &mut [u16],
    call: F,
) -> io::Result<()>
    requires { F.IsAlwaysCallable call }
{
    buffer.fill(9999);
    let answer = call(&mut *buffer);
    println!(rt; "{title}{}", Answer { answer, buffer })
}

// What node v waits for, and what follows it. Here and below the graph, the node and the buffer are what the queries
// themselves take.
fn probe_node(rt: &impl Print, g: CircuitDag, v: u16, buffer: &mut [u16]) -> io::Result<()> {
    println!(rt; "node {v} buffer {}", buffer.len())?;
    let executed = [0, 0, 700];
    probe_call(rt, "execution_blocked", &mut *buffer, |lent| {
        queries::execution_blocked(g, &executed, NodeIndex(v), lent)
    })?;
    probe_call(rt, "blocking_predecessors", &mut *buffer, |lent| {
        queries::blocking_predecessors(g, &executed, NodeIndex(v), lent)
    })?;
    probe_call(rt, "successors", buffer, |lent| {
        queries::successors(g, NodeIndex(v), lent)
    })
}

// The new front layer of a layer that has node v and of one that has it not.
fn probe_layer(rt: &impl Print, g: CircuitDag, v: u16, buffer: &mut [u16]) -> io::Result<()> {
    let executed = [0u16];
    let with = [1u16, v, 700, v];
    probe_call(rt, "new_front_layer", &mut *buffer, |lent| {
        queries::new_front_layer(g, &executed, &with, NodeIndex(v), lent)
    })?;
    let without = [700u16];
    probe_call(rt, "new_front_layer without it", buffer, |lent| {
        queries::new_front_layer(g, &executed, &without, NodeIndex(v), lent)
    })
}

// What takes a graph alone.
fn probe_graph(rt: &impl Print, g: CircuitDag, buffer: &mut [u16]) -> io::Result<()> {
    probe_call(rt, "to_circuit", &mut *buffer, |lent| {
        queries::to_circuit(g, lent)
    })?;
    probe_call(rt, "chain", &mut *buffer, |lent| planning::chain(g, lent))?;
    probe_call(rt, "whole_walk", buffer, |lent| walk::whole_walk(g, lent))
}

// The lists that a graph holds.
fn probe_lists(rt: &impl Print, g: CircuitDag, buffer: &mut [u16]) -> io::Result<()> {
    probe_call(rt, "commuting_operations", &mut *buffer, |lent| {
        accessors::commuting_operations(g, lent)
    })?;
    probe_call(rt, "first_parallel_block", &mut *buffer, |lent| {
        accessors::first_parallel_block(g, lent)
    })?;
    probe_call(rt, "last_parallel_block", buffer, |lent| {
        accessors::last_parallel_block(g, lent)
    })
}

// Everything on one graph, with one buffer; v is the number after the last node.
fn probe_with(rt: &impl Print, g: CircuitDag, v: u16, buffer: &mut [u16]) -> io::Result<()> {
    for node in [0, 2, v, 65535] {
        probe_node(rt, g, node, &mut *buffer)?;
        probe_layer(rt, g, node, &mut *buffer)?;
    }
    probe_graph(rt, g, &mut *buffer)?;
    probe_lists(rt, g, &mut *buffer)
}

// Everything on one graph: with no buffer, buffers of one and two entries, and a long one.
fn probe(rt: &impl Print, g: CircuitDag, v: u16) -> io::Result<()> {
    probe_with(rt, g, v, &mut [0; 0])?;
    probe_with(rt, g, v, &mut [0; 1])?;
    probe_with(rt, g, v, &mut [0; 2])?;
    probe_with(rt, g, v, &mut [0; 512])
}

// A circuit file scheduled in one call.
fn probe_schedule(rt: &impl Print, bytes: &[u8], buffer: &mut [u16]) -> io::Result<()> {
    probe_call(rt, "schedule", buffer, |lent| {
        schedule::schedule(bytes, lent)
    })
}

// The same with no buffer, buffers of one and two entries, and a long one.
fn probe_schedules(rt: &impl Print, bytes: &[u8]) -> io::Result<()> {
    probe_schedule(rt, bytes, &mut [0; 0])?;
    probe_schedule(rt, bytes, &mut [0; 1])?;
    probe_schedule(rt, bytes, &mut [0; 2])?;
    probe_schedule(rt, bytes, &mut [0; 512])
}

// The graph of a circuit file, the empty one where it is refused, then the same with one back insertion too many, which is
// not sound. query_runs and step_runs have the same lines, each with a probe of its own: one function for both would be
// public, and would need a `requires` for the probe as a closure.
fn probe_load(rt: &impl Print, bytes: &[u8]) -> io::Result<()> {
    let loaded = insertion::load(bytes);
    let mut g = loaded.graph;
    if let Err(r) = loaded.answer {
        println!(rt; "load {r}")?;
    }
    // A graph's count is at most 512.
    probe(rt, g, u16::try_from(g.nodes.count).unwrap_or(65535))?;
    // In each program that tries such a graph: a function is longer.
    g.backs = g.backs.wrapping_add(1);
    println!(rt; "not sound")?;
    probe(rt, g, 0)
}

// A circuit file: its schedule, its graph.
fn probe_file(rt: &impl Print, bytes: &[u8]) -> io::Result<()> {
    println!(rt; "file of {} bytes", bytes.len())?;
    probe_schedules(rt, bytes)?;
    probe_load(rt, bytes)
}

fn main(rt: HostRuntime) -> io::Result<()> {
    let mut input = [0; 65536];
    for file in Files(standard_io::read_file(&rt, &mut input)) {
        probe_file(&rt, file)?;
    }
    Ok(())
}
