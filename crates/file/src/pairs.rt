// "Circuit file": the header, the pairs, and a record's part of the file.
ghost use Rattle.std.specs.Prelude.{◌≡◌, ◌+◌, ◌*◌, ◌≤◌, ◌<◌, length, get_or, IfOk};
ghost use Rattle.file.specs.Pairs.{number_at, count_of, offset_of, length_of, header, check_file, locate_record, pair_place, Part};

use crate::{Place, RecordPart, Refusal};

// The field of two bytes at a place.
#[tactic(auto, unfolding(crate::specs::Pairs::number_at))]
pub(crate) fn read_u16(s: &[u8], at: usize) -> usize
    requires { at + 1 < length s.now }
    ensures { (result ≡ number_at s.now at 2) × (result < 65536) }
{
    usize::from(u16::from_le_bytes([s[at], s[at + 1]]))
}

// The same anywhere: a byte past the end counts as 0.
#[tactic(auto, unfolding(crate::specs::Pairs::number_at), using(crate::proofs::PairLaws::field_past))]
pub(crate) fn field_at(s: &[u8], at: usize) -> u16
    ensures { result ≡ number_at s.now at 2 }
{
    if s.len() <= at {
        return 0;
    }
    u16::from_le_bytes([s[at], byte_at(s, at + 1)])
}

// The byte at a place, 0 past the end.
pub fn byte_at(s: &[u8], at: usize) -> u8
    ensures { result ≡ get_or s.now at 0 }
{
    s.get(at).copied().unwrap_or(0)
}

// The header's record count, of any bytes.
pub fn record_count(file: &[u8]) -> usize
    ensures { result ≡ count_of file.now }
{
    usize::from(field_at(file, 0))
}

// The header's record count, of a file whose table is there: 2 once two bytes are there, then 1.
fn check_header(file: &[u8]) -> Result<usize, Refusal>
    ensures value { result ≡ header file.now }
    ensures fits { IfOk result (λ n. (n ≤ 512) × (2 + 4 * n ≤ length file.now)) }
{
    let size = file.len();
    if size < 2 {
        return Err(Refusal::FileTooShort);
    }
    let n = read_u16(file, 0);
    if 512 < n {
        return Err(Refusal::TooManyRecords);
    }
    if size < 2 + 4 * n {
        return Err(Refusal::FileTooShort);
    }
    Ok(n)
}

// The header and the pairs, in the document's order: 2 once two bytes are there, then 1, then 3. `end` is where the
// table, or the part before pair k, ends; there may be slack behind it. With the pair's number, which the refusal names.
pub fn check_file(file: &[u8]) -> Result<(), Refusal>
    ensures { result ≡ check_file file.now }
{
    let n = check_header(file)?;
    let mut end = 2 + 4 * n;
    for (k, pair) in file[2..end].chunks_exact(4).enumerate() {
        let offset = read_u16(pair, 0);
        if offset < end {
            return Err(Refusal::BadPair(k));
        }
        end = offset + read_u16(pair, 2);
    }
    if file.len() < end {
        return Err(Refusal::BadPair(n.saturating_sub(1)));
    }
    Ok(())
}

// Where record i stands by the header and its own pair, in constant time: 2, 1, then 8, and 3 where the pair leads out
// of the file. A load checks the pairs once and takes each record by this.
pub fn locate_pair(file: &[u8], i: usize) -> Result<Place, Refusal>
    ensures { result ≡ pair_place file.now i }
{
    let n = check_header(file)?;
    if n <= i {
        return Err(Refusal::Absent);
    }
    let offset = read_u16(file, 2 + 4 * i);
    let length = read_u16(file, 4 + 4 * i);
    if file.len() < offset + length {
        return Err(Refusal::BadPair(i));
    }
    Ok(Place { offset, length })
}

// Where record i stands in the file: 2, 1, 3, then 8.
pub fn locate_record(file: &[u8], i: usize) -> Result<Place, Refusal>
    ensures { result ≡ locate_record file.now i }
{
    check_file(file)?;
    locate_pair(file, i)
}

// The part of the file at a place, empty where there is none. record_at and part_of are its two public names, one for
// each way to find the place.
fn part_at(file: &[u8], found: Result<Place, Refusal>) -> &[u8]
    requires { IfOk found (λ place. place.offset + place.length ≤ length file.now) }
    ensures { Part file.entry result found }
{
    match found {
        Ok(place) => &file[place.offset..place.offset + place.length],
        Err(_) => &file[..0],
    }
}

// Record i as it stands in the file, no copy: the part that locate_record names, or an empty part where it refuses.
pub fn record_at(file: &[u8], i: usize) -> &[u8]
    ensures { Part file.entry result (locate_record file.now i) }
{
    part_at(file, locate_record(file, i))
}

// The same by the header and pair i alone, for a file whose pairs have been checked: the part that locate_pair names.
pub fn part_of(file: &[u8], i: usize) -> &[u8]
    ensures { Part file.entry result (pair_place file.now i) }
{
    part_at(file, locate_pair(file, i))
}

// Record i as it stands in the file, with where it stands or why it is refused.
pub fn read_record<'a>(file: &'a [u8], i: usize) -> RecordPart<'a>
    ensures { Part file.entry result.bytes (locate_record file.now i)
        × (result.place ≡ locate_record file.now i) }
{
    let place = locate_record(file, i);
    RecordPart {
        bytes: part_at(file, place),
        place,
    }
}
