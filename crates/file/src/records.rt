// "A record": its rule in the document's order, and what it says.
ghost use Rattle.std.specs.Prelude.{◌≡◌, true, cond, ◌&&◌, ◌+◌, ◌*◌, ◌-◌, ◌<◌, ◌≤◌, eqb, leb, length, Some, None};
ghost use Rattle.file.specs.Pairs.{number_at};
ghost use Rattle.file.specs.Records.{definition_rule, qubit_rule, entry_before, ascend_from, set_rule, tail_rule, parse_record, qubits_by, classical_of};
ghost use Rattle.file.specs.Records.{key_at, front, label, form_of, register_form_of};

use crate::pairs::{byte_at, field_at};
use crate::{InvolvedClassical, InvolvedQubits, Record, Refusal, RegisterKey};

// The longest register list.
const MOST_ENTRIES: usize = 24;

// The mask, bytes 3 to 10.
#[tactic(auto, unfolding(crate::specs::Pairs::number_at))]
fn read_mask(s: &[u8]) -> u64
    requires { 14 ≤ length s.now }
    ensures { result ≡ number_at s.now 3 8 }
{
    u64::from_le_bytes([s[3], s[4], s[5], s[6], s[7], s[8], s[9], s[10]])
}

// The kind byte, and what it asks of the two forms.
#[tactic(auto, unfolding(crate::specs::Records::definition_rule))]
fn kind_fits(kind: u8, qubits: u8, register: u8) -> bool
    ensures { result ≡ (leb kind 5 && definition_rule kind qubits register) }
{
    match kind {
        1..=4 => register == 4 && qubits == 0,
        0 | 5 => register != 4,
        _ => false,
    }
}

// What a record of this qubit form and mask involves, where the form fits the mask.
#[tactic(auto, unfolding(crate::specs::Records::qubit_rule, crate::specs::Records::qubits_by))]
fn involved_qubits(form: u8, mask: u64) -> Option<InvolvedQubits>
    ensures { result ≡ cond (qubit_rule form mask) (Some (qubits_by form mask)) None }
{
    match (form, mask) {
        (0, 0) => Some(InvolvedQubits::None),
        (1, 0) => Some(InvolvedQubits::All),
        (2, _) => Some(InvolvedQubits::Set(mask)),
        _ => None,
    }
}

// A Set with mask zero.
fn is_empty_set(form: u8, mask: u64) -> bool
    ensures { result ≡ (eqb form 2 && eqb mask 0) }
{
    form == 2 && mask == 0
}

// The key of entry k, all of whose bytes are there: register_key would look how long the record is, twice an entry.
#[tactic(auto, unfolding(crate::specs::Pairs::number_at))]
fn key_inside(s: &[u8], k: usize) -> RegisterKey
    requires { (k ≤ 256) × (18 + 3 * k ≤ length s.now) }
    ensures { result ≡ key_at s.now k }
{
    RegisterKey {
        name: s[15 + 3 * k],
        index: u16::from_le_bytes([s[16 + 3 * k], s[17 + 3 * k]]),
    }
}

// Entry k comes before the next one: by name, then index.
#[tactic(auto, unfolding(crate::specs::Records::entry_before))]
fn entry_before(s: &[u8], k: usize) -> bool
    requires { (k < 256) × (15 + 3 * (k + 2) ≤ length s.now) }
    ensures { result ≡ entry_before s.now k }
{
    key_inside(s, k) < key_inside(s, k + 1)
}

// The entries come in this order.
fn is_ascending(s: &[u8], c: usize) -> bool
    requires { (c < 256) × (15 + 3 * c ≤ length s.now) }
    ensures { result ≡ ascend_from (c - 1) 0 s.now }
{
    (1..c).all(|k| entry_before(s, k - 1))
}

// A tail with a count byte and its entries.
#[tactic(auto, unfolding(crate::specs::Records::set_rule))]
fn is_set(s: &[u8]) -> bool
    ensures { result ≡ set_rule s.now }
{
    let c = usize::from(byte_at(s, 14));
    s.len() == 15 + 3 * c && c <= MOST_ENTRIES && is_ascending(s, c)
}

// The register form, and what it asks of the tail.
#[tactic(auto, unfolding(crate::specs::Records::tail_rule))]
fn tail_fits(s: &[u8]) -> bool
    requires { 14 ≤ length s.now }
    ensures { result ≡ tail_rule s.now }
{
    let size = s.len();
    match s[11] {
        0 => size == 14,
        1 | 2 => size == 15,
        3 => is_set(s),
        4 => size == 17,
        _ => false,
    }
}

// The registers that a record involves, of any bytes: a byte past the end counts as 0.
#[tactic(auto, unfolding(crate::specs::Records::classical_of))]
pub fn involved_classical(part: &[u8]) -> InvolvedClassical
    ensures { result ≡ classical_of part.now }
{
    match byte_at(part, 11) {
        0 => InvolvedClassical::None,
        1 => InvolvedClassical::All(byte_at(part, 14)),
        2 => InvolvedClassical::AllQubits(byte_at(part, 14)),
        3 => InvolvedClassical::Set(byte_at(part, 14)),
        _ => InvolvedClassical::Definition(byte_at(part, 14), field_at(part, 15)),
    }
}

// A record by its bytes alone, or cause 4, then 12; the caller knows which record of its file it is.
pub fn parse_record(part: &[u8]) -> Result<Record, Refusal>
    ensures { result ≡ parse_record part.now }
{
    if part.len() < 14 {
        return Err(Refusal::BadRecord(0));
    }
    let end = part[0];
    if 1 < end {
        return Err(Refusal::BadRecord(0));
    }
    let kind = part[1];
    let form = part[2];
    if !kind_fits(kind, form, part[11]) {
        return Err(Refusal::BadRecord(0));
    }
    let mask = read_mask(part);
    let qubits = involved_qubits(form, mask).ok_or(Refusal::BadRecord(0))?;
    if !tail_fits(part) {
        return Err(Refusal::BadRecord(0));
    }
    let label = field_at(part, 12);
    let classical = involved_classical(part);
    // Behind the fields: behind six tests the compiler would take the calls above for rare and not inline them.
    if is_empty_set(form, mask) {
        return Err(Refusal::EmptySet(0));
    }
    Ok(Record {
        front: end == 1,
        kind,
        label,
        qubits,
        classical,
    })
}

// Whether a record is for the front, of any bytes: byte 0 alone says so.
pub fn is_front(part: &[u8]) -> bool
    ensures { result ≡ front part.now }
{
    byte_at(part, 0) == 1
}

// A record's label, of any bytes: a byte past the end counts as 0.
pub fn record_label(part: &[u8]) -> u16
    ensures { result ≡ label part.now }
{
    field_at(part, 12)
}

// The qubit form's number, as document 01 counts the forms. A match, here and below: a From would have the same arms.
pub fn qubit_form(qubits: InvolvedQubits) -> u8
    ensures { result ≡ form_of qubits }
{
    match qubits {
        InvolvedQubits::None => 0,
        InvolvedQubits::All => 1,
        InvolvedQubits::Set(_) => 2,
    }
}

// The register form's number.
pub fn register_form(classical: InvolvedClassical) -> u8
    ensures { result ≡ register_form_of classical }
{
    match classical {
        InvolvedClassical::None => 0,
        InvolvedClassical::All(_) => 1,
        InvolvedClassical::AllQubits(_) => 2,
        InvolvedClassical::Set(_) => 3,
        InvolvedClassical::Definition(_, _) => 4,
    }
}

// The key of entry k, of any bytes and any k: a byte past the end counts as 0.
pub fn register_key(part: &[u8], k: usize) -> RegisterKey
    ensures { result ≡ key_at part.now k }
{
    let size = part.len();
    if size < 16 || (size - 16) / 3 < k {
        return RegisterKey { name: 0, index: 0 };
    }
    RegisterKey {
        name: part[15 + 3 * k],
        index: field_at(part, 16 + 3 * k),
    }
}
