// A set of nodes crosses as bytes, 0 or 1 each. No form branches on a byte, so that the compiler takes many at a time:
// `all` would stop at one, and an array's `map` moves its elements into an iterator and takes them one by one.
ghost use Rattle.std.specs.Prelude.{◌≡◌};
ghost use Rattle.host.specs.Marks.{are_marks, marks_of, bytes_of};

use std::array;

// Whether all bytes are marks.
pub(crate) fn are_marks(bytes: &[u8; 512]) -> bool
    ensures { result ≡ are_marks bytes.now }
{
    bytes.iter().fold(true, |fit, b| fit & (*b <= 1))
}

// The marks of the bytes.
pub(crate) fn marks_of(bytes: &[u8; 512]) -> [bool; 512]
    ensures { result ≡ marks_of bytes.now }
{
    array::from_fn(|v| bytes[v] == 1)
}

// The bytes of the marks.
pub(crate) fn bytes_of(marks: &[bool; 512]) -> [u8; 512]
    ensures { result ≡ bytes_of marks.now }
{
    array::from_fn(|v| u8::from(marks[v]))
}
