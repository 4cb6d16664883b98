// A file of gates, without slack: the count, the pairs, the gates.
ghost use Rattle.std.specs.Prelude.{◌≡◌, ◌+◌, ◌*◌, ◌≤◌, length};
ghost use Rattle.file.specs.Lists.{put_at};
ghost use Rattle.writing.specs.Writing.{join_records, gates_of, gate_pairs, write_file};

use crate::Gate;
use crate::fields::{put_gate, put_u16};
use file::Refusal;

// The pairs of n gates, behind the count. The cast keeps the value, which is proved: an offset is below 2 + 18 * 512.
fn put_pairs(n: usize, out: &mut [u8])
    requires { (n ≤ 512) × (2 + 4 * n ≤ length out.old) }
    ensures { out.new ≡ put_at 2 (gate_pairs n (2 + 4 * n)) out.old }
{
    for k in 0..n {
        let offset = 2 + 4 * n + 14 * k;
        put_u16(out, 2 + 4 * k, offset as u16);
        put_u16(out, 4 + 4 * k, 14);
    }
}

// The gates, behind the pairs.
fn put_gates(gates: &[Gate], out: &mut [u8])
    requires { (length gates.now ≤ 512) × (2 + 18 * length gates.now ≤ length out.old) }
    ensures { out.new ≡ put_at (2 + 4 * length gates.now) (join_records (gates_of gates.now)) out.old }
{
    let start = 2 + 4 * gates.len();
    for (k, gate) in gates.iter().enumerate() {
        put_gate(out, start + 14 * k, *gate);
    }
}

// The file of the gates at the buffer's start, 18 bytes for each behind two. Refused 2 for more than 512, then 10. Here
// too the cast keeps the value: n is at most 512.
pub fn write_gates(gates: &[Gate], out: &mut [u8]) -> Result<usize, Refusal>
    ensures { record { answer = result; buffer = out.new } ≡ write_file (gates_of gates.now) out.old }
{
    let n = gates.len();
    if 512 < n {
        return Err(Refusal::TooManyRecords);
    }
    let size = 2 + 18 * n;
    if out.len() < size {
        return Err(Refusal::ShortBuffer);
    }
    put_u16(out, 0, n as u16);
    put_pairs(n, out);
    put_gates(gates, out);
    Ok(size)
}
