// K6's way to load and insert: each file's blocks, its schedule into buffers that are too short and long, its load; of a file that passes its
// records inserted one by one in that way, and then in both ways by turns, behind which its first record once more, and again on a graph that is
// not sound. On standard input each file stands behind its length in two bytes, little-endian. Of a graph its counts, both ends and the
// successors of some nodes are shown. tools/graph_answers.py computes the same from the documents.
#![tactic(auto)]

use graph::{CircuitDag, End, NodeIndex};
use links::LoadingRule;
use standard_io::{Answer, Entries, Files};
use std::io;

// One call here and one below: with the call as a closure, as query_runs has it, these two functions would be three.
fn print_schedule(rt: &impl Print, file: &[u8], buffer: &mut [u16]) -> io::Result<()> {
    buffer.fill(9999);
    let answer = schedule::schedule_both_ends(file, &mut *buffer);
    println!(rt; "schedule_both_ends{}", Answer { answer, buffer })
}

fn print_successors(rt: &impl Print, g: CircuitDag, v: u16) -> io::Result<()> {
    let mut buffer = [9999u16; 9];
    let answer = queries::successors(g, NodeIndex(v), &mut buffer);
    println!(rt;
        "successors {v}{}",
        Answer {
            answer,
            buffer: &buffer
        }
    )
}

// An end's all-qubit node, and its nodes of qubits 0 to 8.
fn print_end(rt: &impl Print, title: &str, end: &End) -> io::Result<()> {
    println!(rt; "{title} {}{}", end.all.0, Entries(&end.node))
}

// The graph's counts, its two ends, and the successors of nodes 0 to 5.
fn print_graph(rt: &impl Print, g: CircuitDag) -> io::Result<()> {
    println!(rt; " nodes {} edges {}", g.nodes.count, g.edges.count)?;
    print_end(rt, "first", &g.first)?;
    print_end(rt, "last", &g.last)?;
    for v in 0..6 {
        print_successors(rt, g, v)?;
    }
    Ok(())
}

fn print_load(rt: &impl Print, file: &[u8]) -> io::Result<()> {
    let x = insertion::load_by(LoadingRule::FarAll, file);
    match x.answer {
        Ok(()) => print!(rt; "load_by accepted")?,
        Err(r) => print!(rt; "load_by {r}")?,
    }
    print_graph(rt, x.graph)
}

// One insertion, a line if it is refused; the graph that it returns.
fn insert_one(
    rt: &impl Print,
    rule: LoadingRule,
    g: CircuitDag,
    part: &[u8],
) -> io::Result<CircuitDag> {
    let x = insertion::insert_by(rule, g, part);
    if let Err(r) = x.answer {
        println!(rt; "insert_by {r}")?;
    }
    Ok(x.graph)
}

// The file's records, one after the other, by these ways by turns; the first again, and on a graph that is not sound.
fn insert_each(
    rt: &impl Print,
    file: &[u8],
    even: LoadingRule,
    odd: LoadingRule,
) -> io::Result<()> {
    let mut g = CircuitDag::new();
    // By the record's number, since the file's table gives its part by that: an iterator of parts would be a type of
    // its own for this loop and that of empty_set_runs, whose insertions have one way and print each answer.
    for i in 0..file::record_count(file) {
        let rule = if i % 2 == 0 { even } else { odd };
        g = insert_one(rt, rule, g, file::part_of(file, i))?;
    }
    print!(rt; "inserted")?;
    print_graph(rt, g)?;
    g = insert_one(rt, even, g, file::part_of(file, 0))?;
    // One back insertion too many: the graph is not sound. In each program that tries one: a function is longer.
    g.backs = g.backs.wrapping_add(1);
    insert_one(rt, even, g, file::part_of(file, 0))?;
    Ok(())
}

// The file's blocks, and its schedule.
fn print_blocks(rt: &impl Print, file: &[u8]) -> io::Result<()> {
    let text = report::blocks_text_by(LoadingRule::FarAll, file);
    rt.write_all(text.as_bytes())?;
    print_schedule(rt, file, &mut [0; 0])?;
    print_schedule(rt, file, &mut [0; 1])?;
    print_schedule(rt, file, &mut [0; 512])
}

fn print_file(rt: &impl Print, file: &[u8]) -> io::Result<()> {
    println!(rt; "file of {} bytes", file.len())?;
    print_blocks(rt, file)?;
    print_load(rt, file)?;
    if file::check_file(file).is_ok() {
        insert_each(rt, file, LoadingRule::FarAll, LoadingRule::FarAll)?;
        insert_each(rt, file, LoadingRule::FarAll, LoadingRule::NearAll)?;
    }
    Ok(())
}

fn main(rt: HostRuntime) -> io::Result<()> {
    let mut input = [0; 65536];
    for file in Files(standard_io::read_file(&rt, &mut input)) {
        print_file(&rt, file)?;
    }
    Ok(())
}
