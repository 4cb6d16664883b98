// What the programs `blocks` and `blocks_both_ends` print for a circuit file. The text is defined in specs/Text.antt.
#![tactic(auto)]

ghost use Rattle.std.specs.Prelude.{◌≡◌};
ghost use Rattle.report.specs.Text.{printed};

mod lines;
mod writer;

pub use lines::{blocks_text, blocks_text_by};

// The first `length` bytes are the text; the rest are zeros. The buffer is fixed, since the libraries have no heap: 5,120
// bytes hold the lines of 512 nodes. That `length` is no more stands in the contracts of what makes one, and in no ghost
// field, which would ask it of a caller who fills the fields.
#[derive(Clone, Copy)]
pub struct Text {
    pub length: usize,
    pub bytes: [u8; 5120],
}

impl Text {
    // The text alone.
    pub fn as_bytes(&self) -> &[u8]
        ensures { result.now ≡ printed self.now }
    {
        &self.bytes[..self.length.min(5120)]
    }
}
