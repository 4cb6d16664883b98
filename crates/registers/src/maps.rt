// The register maps of a list of records, and of one record on maps that are handed in. No other part of a graph is
// read. Of a list the links are made first: they check the records, and the maps are made of those that they accept.
ghost use Rattle.std.specs.Prelude.{◌≡◌, ◌&&◌, ◌||◌, ◌+◌, ◌≤◌, length, MatchResult};
ghost use Rattle.graph.specs.Soundness.{register_map_rule};
ghost use Rattle.links.specs.Links.{rule_of};
ghost use Rattle.registers.specs.Registers.{registers_of, maps_stopped, maps_kept, enter_records, register_records, register_record};

use crate::entries::{NoRoom, RegisterMap, enter_record};
use crate::{Registered, RegisteredRecords};
use file::{InvolvedClassical, Refusal};
use graph::{NodeIndex, Registers};
use links::LoadingRule;

// The three answers are functions, since clauses name each by a definition of specs/. first and last stay two parameters:
// they come as two parts of a graph and go out as two of Registered, and a struct between would be made and taken apart.

// The refusal of the record after k accepted ones.
fn maps_stopped(k: usize, r: Refusal) -> Registered
    ensures { result ≡ maps_stopped k r }
{
    Registered {
        accepted: k,
        answer: Err(r),
        first: graph::no_registers(),
        last: graph::no_registers(),
    }
}

// The refusal of a record as node v, which leaves the maps as they were.
fn maps_kept(v: NodeIndex, first: Registers, last: Registers, r: Refusal) -> Registered
    ensures { result ≡ maps_kept v first last r }
{
    Registered {
        accepted: usize::from(v.0),
        answer: Err(r),
        first,
        last,
    }
}

// The maps of k nodes.
fn maps_held(k: usize, first: Registers, last: Registers) -> Registered
    ensures { result ≡ registers_of k first last }
{
    Registered {
        accepted: k,
        answer: Ok(()),
        first,
        last,
    }
}

// The maps of the file's records with these numbers, which the links have accepted, one after the other as nodes 0, 1,
// 2, ..: 7.
fn enter_records(file: &[u8], order: &[u16]) -> Registered
    requires { length order.now ≤ 512 }
    ensures { result ≡ enter_records file.now order.now }
{
    let mut first = RegisterMap::new();
    let mut last = RegisterMap::new();
    for (k, i) in order.iter().enumerate() {
        let i = usize::from(*i);
        let part = file::part_of(file, i);
        // Most records have no register: they take no call.
        if let InvolvedClassical::None = file::involved_classical(part) {
            continue;
        }
        // A cast: the links accept at most 512 records.
        let v = NodeIndex(k as u16);
        if let Err(NoRoom) = enter_record(part, v, &mut first, &mut last) {
            return maps_stopped(k, Refusal::TooManyRegisters(i));
        }
    }
    maps_held(order.len(), first.entries, last.entries)
}

// The file's records with these numbers, one after the other, as nodes 0, 1, 2, ..: the links refuse 2, 1, 8, 3 where
// the file has a record not, then 4, 12, 5, 6, the maps 7. The maps see only the records before the links' first
// refusal, so that theirs, if there is one, is the earlier.
pub fn register_records(rule: LoadingRule, file: &[u8], order: &[u16]) -> RegisteredRecords
    ensures { result ≡ register_records (rule_of rule) file.now order.now }
{
    let linked = links::link_records(rule, file, order);
    let accepted = linked.accepted;
    let registered = enter_records(file, &order[..accepted]);
    RegisteredRecords { linked, registered }
}

// Whether both maps keep the clauses on a map of a graph with v nodes.
fn maps_fit(first: Registers, last: Registers, v: NodeIndex) -> bool
    ensures { result ≡ (register_map_rule v.0 first && register_map_rule v.0 last) }
{
    let n = usize::from(v.0);
    graph::is_register_map(first, n) && graph::is_register_map(last, n)
}

// The maps of a graph with v nodes after record i as node v: 11, 4, 12, 5, 7.
fn enter_alone(
    i: usize,
    first: Registers,
    last: Registers,
    part: &[u8],
    v: NodeIndex,
) -> Result<(Registers, Registers), Refusal>
    ensures { MatchResult result
        (λ maps. registers_of (v.0 + 1) maps.0 maps.1 ≡ register_record i first last part.now v)
        (λ cause. maps_kept v first last cause ≡ register_record i first last part.now v) }
{
    if !maps_fit(first, last, v) {
        return Err(Refusal::Unsound);
    }
    let r = file::parse_record(part).map_err(|c| file::at_record(i, c))?;
    if 512 <= v.0 {
        return Err(Refusal::TooManyNodes);
    }
    // Most records have no register: they copy no map.
    if let InvolvedClassical::None = r.classical {
        return Ok((first, last));
    }
    let mut new_first = RegisterMap::of(first);
    let mut new_last = RegisterMap::of(last);
    enter_record(part, v, &mut new_first, &mut new_last).map_err(|_| Refusal::TooManyRegisters(i))?;
    Ok((new_first.entries, new_last.entries))
}

// Record i as node v on the register maps of a graph with v nodes. A refusal leaves them as they were.
pub fn register_record(
    i: usize,
    first: Registers,
    last: Registers,
    part: &[u8],
    v: NodeIndex,
) -> Registered
    ensures { result ≡ register_record i first last part.now v }
{
    match enter_alone(i, first, last, part, v) {
        Ok((first, last)) => maps_held(usize::from(v.0) + 1, first, last),
        Err(cause) => maps_kept(v, first, last, cause),
    }
}
