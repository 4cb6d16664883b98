// "Causes of refusal": the document's number and value of each cause.
ghost use Rattle.std.specs.Prelude.{◌≡◌, Some};
ghost use Rattle.file.specs.Refusals.{number_of, value_of, at_record, refusal_text};

use crate::Refusal;
use std::error::Error;
use std::fmt;

// "`refused N`, with ` at I` where the table has a record or pair"
impl fmt::Display for Refusal {
    ghost output = { λ r. Some (refusal_text r) };

    fn fmt<W: fmt::Write>(&self, f: &mut fmt::Formatter<W>) -> fmt::Result {
        write!(f, "refused {}", refusal_number(*self))?;
        if let Some(i) = refusal_value(*self) {
            write!(f, " at {i}")?;
        }
        Ok(())
    }
}

impl Error for Refusal {}

// The number of a cause, 1 to 12, as document 01's table has it. A match: a From would have the same arms.
pub fn refusal_number(r: Refusal) -> u8
    ensures { result ≡ number_of r }
{
    match r {
        Refusal::FileTooShort => 1,
        Refusal::TooManyRecords => 2,
        Refusal::BadPair(_) => 3,
        Refusal::BadRecord(_) => 4,
        Refusal::TooManyNodes => 5,
        Refusal::TooManyEdges(_) => 6,
        Refusal::TooManyRegisters(_) => 7,
        Refusal::Absent => 8,
        Refusal::NotInLayer => 9,
        Refusal::ShortBuffer => 10,
        Refusal::Unsound => 11,
        Refusal::EmptySet(_) => 12,
    }
}

// The pair or record that a cause returns beside its number.
pub fn refusal_value(r: Refusal) -> Option<usize>
    ensures { result ≡ value_of r }
{
    match r {
        Refusal::BadPair(i) => Some(i),
        Refusal::BadRecord(i)
        | Refusal::TooManyEdges(i)
        | Refusal::TooManyRegisters(i)
        | Refusal::EmptySet(i) => Some(i),
        Refusal::TooManyNodes => Some(0),
        Refusal::FileTooShort
        | Refusal::TooManyRecords
        | Refusal::Absent
        | Refusal::NotInLayer
        | Refusal::ShortBuffer
        | Refusal::Unsound => None,
    }
}

// A refusal that a record gets by itself, with the record's number in its file.
pub fn at_record(i: usize, r: Refusal) -> Refusal
    ensures { result ≡ at_record i r }
{
    match r {
        Refusal::BadRecord(_) => Refusal::BadRecord(i),
        Refusal::TooManyEdges(_) => Refusal::TooManyEdges(i),
        Refusal::TooManyRegisters(_) => Refusal::TooManyRegisters(i),
        Refusal::EmptySet(_) => Refusal::EmptySet(i),
        other => other,
    }
}
