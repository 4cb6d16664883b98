// Fields and records at a position of a lent buffer. Where there is no room for all of it nothing is written.
ghost use Rattle.std.specs.Prelude.{◌≡◌};
ghost use Rattle.writing.specs.Writing.{bytes_of, gate_of, put_if_fits};

use crate::Gate;

// The bytes of a part. `at + part.len()` may wrap, so the room is tested from the buffer's end.
pub fn put_part(out: &mut [u8], at: usize, part: &[u8])
    ensures { out.new ≡ put_if_fits at part.now out.old }
{
    let n = part.len();
    if n <= out.len() && at <= out.len() - n {
        out[at..at + n].copy_from_slice(part);
    }
}

// A number of two bytes, the low one first.
pub fn put_u16(out: &mut [u8], at: usize, x: u16)
    ensures { out.new ≡ put_if_fits at (bytes_of 2 x) out.old }
{
    put_part(out, at, &x.to_le_bytes());
}

// The record of a gate: its end, and a set of qubits as a mask. The bytes that are not written are zeros.
pub fn gate_record(gate: Gate) -> [u8; 14]
    ensures { result ≡ gate_of gate }
{
    let mut bytes = [0; 14];
    bytes[0] = u8::from(gate.front);
    bytes[2] = 2;
    bytes[3..11].copy_from_slice(&gate.mask.to_le_bytes());
    bytes
}

// The same at a position.
pub fn put_gate(out: &mut [u8], at: usize, gate: Gate)
    ensures { out.new ≡ put_if_fits at (gate_of gate) out.old }
{
    put_part(out, at, &gate_record(gate));
}
