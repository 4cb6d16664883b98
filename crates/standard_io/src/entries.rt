// How the programs that print answers show a lent buffer.
ghost use Rattle.std.specs.Prelude.{Some};
ghost use Rattle.standard_io.specs.Entries.{entries_text, answer_text};

use file::Refusal;
use std::fmt;

// A buffer, of which the first nine entries are shown, as many as the longest answer has.
// The loop over numbers stands in replay, file_runs and writing_runs too, of three lines each: a type that shows a list of
// any numbers would be longer, with its impl, its clause and an edit of its own.
#[derive(Clone, Copy)]
pub struct Entries<'a>(pub &'a [u16]);

impl fmt::Display for Entries<'_> {
    ghost output = { λ e. Some (entries_text e.0.now) };

    fn fmt<W: fmt::Write>(&self, f: &mut fmt::Formatter<W>) -> fmt::Result {
        write!(f, " |")?;
        for v in &self.0[..self.0.len().min(9)] {
            write!(f, " {v}")?;
        }
        Ok(())
    }
}

// What a call answered, and the buffer that it was lent.
#[derive(Clone, Copy)]
pub struct Answer<'a> {
    pub answer: Result<usize, Refusal>,
    pub buffer: &'a [u16],
}

impl fmt::Display for Answer<'_> {
    ghost output = { λ a. Some (answer_text a.answer a.buffer.now) };

    fn fmt<W: fmt::Write>(&self, f: &mut fmt::Formatter<W>) -> fmt::Result {
        match self.answer {
            Ok(k) => write!(f, " {k}{}", Entries(self.buffer)),
            Err(r) => write!(f, " {r}{}", Entries(self.buffer)),
        }
    }
}
