// A text as it is written. The buffer is fixed, since the libraries have no heap.
ghost use Rattle.std.specs.Prelude.{◌≡◌, [], ◌∷◌, ◌++◌, ◌+◌, ◌<◌, ◌≤◌, length};
ghost use Rattle.report.specs.Text.{digits, decimal, text_of};

use crate::Text;
use std::marker::Model;

// Contracts see the text so far. Each function asks room for what it writes: without, each would answer a Result.
#[derive(Drop)]
pub(crate) struct Writer {
    bytes: [u8; 5120],
    length: usize,
}

impl Model for Writer {
    ghost use Rattle.std.specs.Prelude.{◌≡◌, List, ℕ, ◌≤◌, take, replicate};
    ghost use Rattle.file.specs.Lists.{onto};

    ghost Value = { List ℕ };

    ghost view = { λ w. take w.length w.bytes };

    ghost invariant = { λ w. (w.length ≤ 5120) × (w.bytes ≡ onto (take w.length w.bytes) (replicate 5120 0)) };
}

impl Writer {
    pub(crate) fn new() -> Writer
        ensures { result ≡ [] }
    {
        Writer {
            bytes: [0; 5120],
            length: 0,
        }
    }

    pub(crate) fn push(&mut self, byte: u8)
        requires { length self.old < 5120 }
        ensures { self.new ≡ self.old ++ byte ∷ [] }
    {
        self.bytes[self.length] = byte;
        self.length += 1;
    }

    pub(crate) fn write(&mut self, s: &[u8])
        requires { length self.old + length s.now ≤ 5120 }
        ensures { self.new ≡ self.old ++ s.now }
    {
        self.bytes[self.length..self.length + s.len()].copy_from_slice(s);
        self.length += s.len();
    }

    // The last k decimal digits of x, without zeros in front: by recursion, since the last digit comes last. By hand:
    // `write!` may fail, and here there is always room.
    fn write_digits(&mut self, k: usize, x: usize)
        requires { length self.old + length (digits k x) ≤ 5120 }
        ensures { self.new ≡ self.old ++ digits k x }
    {
        if k == 0 {
            return;
        }
        if x < 10 {
            self.push(digit(x));
            return;
        }
        self.write_digits(k - 1, x / 10);
        self.push(digit(x % 10));
    }

    pub(crate) fn write_number(&mut self, x: usize)
        requires { length self.old + length (decimal x) ≤ 5120 }
        ensures { self.new ≡ self.old ++ decimal x }
    {
        self.write_digits(20, x);
    }

    pub(crate) fn into_text(self) -> Text
        ensures value { result ≡ text_of self }
        ensures within { result.length ≤ length result.bytes }
    {
        let bytes = self.bytes;
        Text {
            length: self.length,
            bytes,
        }
    }
}

// The character of a digit. The cast keeps the value, which is below 10.
fn digit(d: usize) -> u8
    requires { d < 10 }
    ensures { result ≡ 48 + d }
{
    b'0' + d as u8
}
