// The limits: 512 nodes at either end and the 513th refused, 2,048 edges and one more refused, 256 register entries and
// one more refused, by one key and by a list of 24; and, on a graph of 512 nodes, an empty set, refused 12 and not 5.
#![tactic(auto)]

ghost use Rattle.std.specs.Prelude.{◌≤◌, ◌<◌};

use graph::CircuitDag;
use std::{array, io};
use writing::Gate;

// The masks of a file's gates: of qubit 0 alone, or in layers of 8, where each gate has one qubit from every gate of
// the layer before.
#[derive(Clone, Copy)]
enum Pattern {
    Plain,
    Layers,
}

impl Pattern {
    // Gate k's mask. The layers are by turns the rows and the columns of an 8 x 8 grid of qubits.
    fn mask(self, k: usize) -> u64 {
        let j = k % 8;
        match self {
            Pattern::Plain => 1,
            Pattern::Layers if k / 8 % 2 == 0 => 255 << (8 * j),
            Pattern::Layers => 0x0101_0101_0101_0101 << j,
        }
    }
}

// A file of n gates, of at most 512, at the start of the array. front is the record's own bool.
fn gates(n: usize, front: bool, pattern: Pattern) -> [u8; 9218] {
    let gates: [Gate; 512] = array::from_fn(|k| Gate {
        front,
        mask: pattern.mask(k),
    });
    let mut file = [0; 9218];
    let _ = writing::write_gates(&gates[..n.min(512)], &mut file);
    file
}

// What one more record gives.
fn print_insertion(rt: &impl Print, dag: CircuitDag, record: &[u8]) -> io::Result<()> {
    match insertion::insert(dag, record).answer {
        Ok(v) => println!(rt; "  one more: node {}", v.0),
        Err(r) => println!(rt; "  one more: {r}"),
    }
}

// The counts of a loaded graph, and the place of a node.
fn print_graph(rt: &impl Print, title: &str, dag: CircuitDag, v: usize) -> io::Result<()>
    requires { v < 512 }
{
    let place = dag.nodes.place[v];
    println!(rt;
        "{title}{} nodes, {} edges, {} entries, node {v} at place {place}",
        dag.nodes.count, dag.edges.count, dag.last_registers.count
    )
}

// The outcome of a file, and what one more record on its graph gives.
fn print_load(rt: &impl Print, title: &str, file: &[u8], v: usize, record: &[u8]) -> io::Result<()>
    requires { v < 512 }
{
    let loaded = insertion::load(file);
    match loaded.answer {
        Ok(()) => {
            print_graph(rt, title, loaded.graph, v)?;
            print_insertion(rt, loaded.graph, record)
        }
        Err(r) => println!(rt; "{title}{r}"),
    }
}

// A file of one definition of name 1.
fn definition(length: u16) -> [u8; 23] {
    let mut file = [0; 23];
    file[0] = 1;
    file[2] = 6;
    file[4] = 17;
    file[7] = 1;
    file[17] = 4;
    file[20] = 1;
    writing::put_u16(&mut file, 21, length);
    file
}

// A definition of name 1, and a list of keys of that name from index `first` on.
#[derive(Clone, Copy)]
struct Measured {
    length: u16,
    first: u16,
    keys: u8,
    ghost few: { (first ≤ 256) × (keys ≤ 25) },
}

impl Measured {
    fn of(length: u16, first: u16, keys: u8) -> Measured
        requires { (first ≤ 256) × (keys ≤ 25) }
    {
        Measured {
            length,
            first,
            keys,
        }
    }

    // A file of the two: each key is written from its number.
    fn file(self) -> [u8; 117] {
        let mut file = [0; 117];
        file[0] = 2;
        file[2] = 10;
        file[4] = 17;
        file[6] = 27;
        file[8] = 15 + 3 * self.keys;
        file[11] = 1;
        file[21] = 4;
        file[24] = 1;
        writing::put_u16(&mut file, 25, self.length);
        file[38] = 3;
        file[41] = self.keys;
        for k in 0..self.keys {
            let key = usize::from(42 + 3 * k);
            file[key] = 1;
            writing::put_u16(&mut file, key + 1, self.first + u16::from(k));
        }
        file
    }

    // The outcome of such a file, and what one more record on its graph gives.
    fn print(self, rt: &impl Print, title: &str, record: &[u8]) -> io::Result<()> {
        let file = self.file();
        let end = usize::from(42 + 3 * self.keys);
        print_load(rt, title, &file[..end], 1, record)
    }
}

// A definition alone, and what the list of 24 keys of such a file gives in a single call on its graph.
fn print_single(rt: &impl Print, title: &str, length: u16, file: &[u8]) -> io::Result<()> {
    let defined = definition(length);
    match file.get(27..114) {
        Some(list) => print_load(rt, title, &defined, 0, list),
        None => Ok(()),
    }
}

// Lists of 24 and 25 keys at maps of 232, 233 and 256 entries: 7 goes by the keys that are new, and 4 comes before it. `entry` is another name's key.
fn print_lists(rt: &impl Print, entry: &[u8]) -> io::Result<()> {
    Measured::of(232, 232, 24).print(rt, "232 entries, 24 keys: ", entry)?;
    Measured::of(233, 233, 24).print(rt, "233 entries, 24 keys: ", entry)?;
    Measured::of(233, 232, 24).print(rt, "233 entries, 24 keys, 23 new: ", entry)?;
    Measured::of(256, 232, 24).print(rt, "256 entries, 24 keys, none new: ", entry)?;
    Measured::of(233, 233, 25).print(rt, "233 entries, 25 keys: ", entry)?;
    let fits = Measured::of(232, 232, 24).file();
    print_single(rt, "a definition of 232, then 24 keys: ", 232, &fits)?;
    let over = Measured::of(233, 233, 24).file();
    print_single(rt, "a definition of 233, then 24 keys: ", 233, &over)
}

// A gate on no qubit on a full graph: 12 before 5.
fn print_empty_set(rt: &impl Print) -> io::Result<()> {
    let nothing = writing::gate_record(Gate {
        front: false,
        mask: 0,
    });
    let back = gates(512, false, Pattern::Plain);
    print_load(
        rt,
        "512 at the back, then an empty set: ",
        &back,
        511,
        &nothing,
    )
}

// 2,048 edges, and one more.
fn print_layers(rt: &impl Print, gate: &[u8]) -> io::Result<()> {
    let layers = gates(264, false, Pattern::Layers);
    match layers.get(..4754) {
        Some(file) => print_load(rt, "33 layers of 8: ", file, 263, gate),
        None => Ok(()),
    }
}

fn main(rt: HostRuntime) -> io::Result<()> {
    let gate = writing::gate_record(Gate {
        front: false,
        mask: 1,
    });
    let entry = [0u8, 0, 0, 0, 0, 0, 0, 0, 0, 0, 0, 3, 0, 0, 1, 2, 0, 0];
    let back = gates(512, false, Pattern::Plain);
    print_load(&rt, "512 at the back: ", &back, 511, &gate)?;
    let front = gates(512, true, Pattern::Plain);
    print_load(&rt, "512 at the front: ", &front, 511, &gate)?;
    print_layers(&rt, &gate)?;
    let most = definition(256);
    print_load(&rt, "a definition of 256: ", &most, 0, &entry)?;
    let over = definition(257);
    print_load(&rt, "a definition of 257: ", &over, 0, &entry)?;
    print_lists(&rt, &entry)?;
    print_empty_set(&rt)
}
