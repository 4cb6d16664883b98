// Files of gates, records and fields written into buffers with room to spare, just enough and one byte less, at positions
// up to the buffer's end, past it and so far past it that the sum would wrap. Each buffer held 170s and is printed byte for
// byte, of a long one the start and the end. tools/writing_answers.py computes the same from the documents.
#![tactic(auto)]

use std::io;
use writing::Gate;

// The bytes, and the end of the line.
fn print_bytes(rt: &impl Print, bytes: &[u8]) -> io::Result<()> {
    print!(rt; " |")?;
    for b in bytes {
        print!(rt; " {b}")?;
    }
    println!(rt)
}

// The gates: those of the first three and of the last have bits in several bytes, and gates 1 and 511 are at the front.
fn some_gates() -> [Gate; 513] {
    let mut gates = [Gate {
        front: false,
        mask: 0,
    }; 513];
    gates[0].mask = 1;
    gates[1] = Gate {
        front: true,
        mask: 9241421688590303745,
    };
    gates[2].mask = 9223372036854775808;
    gates[511] = Gate {
        front: true,
        mask: 72057594037927941,
    };
    gates
}

// A file of the first n gates, of at most 513: the answer.
fn probe_gates(rt: &impl Print, n: usize, buffer: &mut [u8]) -> io::Result<()> {
    print!(rt; "gates {n} buffer {}:", buffer.len())?;
    buffer.fill(170);
    let gates = some_gates();
    match writing::write_gates(&gates[..n.min(513)], buffer) {
        Ok(k) => print!(rt; " {k}"),
        Err(r) => print!(rt; " {r}"),
    }
}

// The answer and the whole buffer.
fn probe_small(rt: &impl Print, n: usize, buffer: &mut [u8]) -> io::Result<()> {
    probe_gates(rt, n, &mut *buffer)?;
    print_bytes(rt, &*buffer)
}

// What a call writes into a buffer of 170s.
fn probe_put<F: FnOnce(&mut [u8])>(
    rt: &impl Print,
    title: &str,
    at: usize,
    buffer: &mut [u8],
    put: F,
) -> io::Result<()>
    requires { F.IsAlwaysCallable put }
{
    buffer.fill(170);
    put(&mut *buffer);
    print!(rt; "{title} at {at}:")?;
    print_bytes(rt, &*buffer)
}

// A part in a buffer of five.
fn probe_part(rt: &impl Print, at: usize, part: &[u8]) -> io::Result<()> {
    probe_put(rt, "part", at, &mut [0; 5], |out| {
        writing::put_part(out, at, part)
    })
}

// Numbers of two bytes and parts in a buffer of five, a gate at the front in one of sixteen.
fn probe_fields(rt: &impl Print) -> io::Result<()> {
    for at in [0, 3, 4, 18446744073709551615] {
        probe_put(rt, "number", at, &mut [0; 5], |out| {
            writing::put_u16(out, at, 513)
        })?;
    }
    for at in [0, 2, 3, 18446744073709551614] {
        probe_part(rt, at, &[1, 2, 3])?;
    }
    probe_part(rt, 0, &[1, 2, 3, 4, 5, 6])?;
    probe_part(rt, 5, &[])?;
    probe_part(rt, 6, &[])?;
    let front = Gate {
        front: true,
        mask: 9241421688590303745,
    };
    for at in [0, 2, 3] {
        probe_put(rt, "gate", at, &mut [0; 16], |out| {
            writing::put_gate(out, at, front)
        })?;
    }
    let gate = Gate {
        front: false,
        mask: 9223372036854775808,
    };
    print!(rt; "gate_record:")?;
    print_bytes(rt, &writing::gate_record(gate))
}

fn main(rt: HostRuntime) -> io::Result<()> {
    probe_small(&rt, 0, &mut [0; 2])?;
    probe_small(&rt, 0, &mut [0; 1])?;
    probe_small(&rt, 1, &mut [0; 24])?;
    probe_small(&rt, 3, &mut [0; 56])?;
    probe_small(&rt, 3, &mut [0; 55])?;
    let mut most = [0; 9218];
    probe_gates(&rt, 512, &mut most)?;
    print_bytes(&rt, &most[2042..2064])?;
    print_bytes(&rt, &most[9190..9218])?;
    let mut short = [0; 9217];
    probe_gates(&rt, 512, &mut short)?;
    print_bytes(&rt, &short[9190..9217])?;
    let mut large = [0; 9236];
    probe_gates(&rt, 513, &mut large)?;
    print_bytes(&rt, &large[0..10])?;
    probe_fields(&rt)
}
