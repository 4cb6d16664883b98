// The register maps of a circuit while records are entered: entry i has the key (name[i], index[i]) and the node node[i]. The
// rules are in specs/Registers.antt, what the methods answer in specs/RegisterMaps.antt.
ghost use Rattle.std.specs.Prelude.{◌≡◌, false, not, ◌<◌, ◌≤◌, IsTrue, ◌↔◌, IfOk, MatchResult};
ghost use Rattle.file.specs.Records.{front};
ghost use Rattle.graph.specs.Dag.{entries_of, no_registers};
ghost use Rattle.file.specs.declared.InvolvedClassical.TheVariants.{Set};
ghost use Rattle.registers.specs.Registers.{has_key, put, registers_by, registers_after, maps_after, with_entries};
ghost use Rattle.registers.specs.RegisterMaps.{keyed, Fits, StandsAt, Found, Becomes, BothBecome, EndsBecome, Marked, Standing, put_all};
ghost use Rattle.registers.specs.RegisterMaps.{definition, maps_of, of_name};

use file::{InvolvedClassical, RegisterKey};
use graph::{NodeIndex, Registers};

// A new key would be a map's 257th.
#[derive(Clone, Copy)]
pub(crate) struct NoRoom;

// A definition by the record of node v: the keys 0 to length - 1 of a name.
#[derive(Clone, Copy)]
struct Definition {
    name: u8,
    length: u16,
    v: NodeIndex,
    ghost few: { length ≤ 256 },
}

impl Definition {
    // A longer one passes a map's 256 keys, whatever the map has.
    fn of(name: u8, length: u16, v: NodeIndex) -> Result<Definition, NoRoom>
        ensures { MatchResult result (λ d. (d.name ≡ name) × (d.length ≡ length) × (d.v ≡ v)) (λ _. 256 < length) }
    {
        if 256 < length {
            return Err(NoRoom);
        }
        Ok(Definition { name, length, v })
    }
}

// A register map, an array for each part of an entry as C reads it, and, for keys, where they may stand: a guess, compared
// with the key before use; nothing is promised of it.
#[derive(Drop)]
pub(crate) struct RegisterMap {
    pub(crate) entries: Registers,
    hints: [u8; 2048],
    ghost fits: { Fits entries },
}

// The cell of a key's guess: names that differ modulo 8, with indices below 256, have cells of their own. Crate graph
// counts cells so too: for one line in each, one call for both would be a public one of crate file.
fn hint_cell(key: RegisterKey) -> usize
    ensures { result < 2048 }
{
    (usize::from(key.name) * 256 + usize::from(key.index)) % 2048
}

impl RegisterMap {
    // A map without entries.
    pub(crate) fn new() -> Self
        ensures { result.entries ≡ no_registers }
    {
        RegisterMap::of(graph::no_registers())
    }

    // A map with these entries, and no guesses.
    pub(crate) fn of(entries: Registers) -> Self
        requires { Fits entries }
        ensures { result.entries ≡ entries }
    {
        RegisterMap {
            entries,
            hints: [0; 2048],
        }
    }

    // The key at position p.
    fn key(&self, p: usize) -> RegisterKey
        requires { p < 256 }
        ensures { StandsAt self.now.entries result p }
    {
        RegisterKey {
            name: self.entries.name[p],
            index: self.entries.index[p],
        }
    }

    // Whether the key stands at position p.
    fn stands_at(&self, p: usize, key: RegisterKey) -> bool
        requires { p < 256 }
        ensures { IsTrue result ↔ StandsAt self.now.entries key p }
    {
        self.key(p) == key
    }

    // The key's position. A loop, and no find: that takes one step more an entry, and where many keys share a cell a load
    // reads many entries.
    fn find(&self, key: RegisterKey) -> Option<usize>
        ensures { Found self.now.entries key result }
    {
        let guess = usize::from(self.hints[hint_cell(key)]);
        if guess < self.entries.count && self.stands_at(guess, key) {
            return Some(guess);
        }
        for p in 0..self.entries.count {
            if self.stands_at(p, key) {
                return Some(p);
            }
        }
        None
    }

    // Whether there is no room for one more key.
    fn is_full(&self) -> bool
        ensures { IsTrue result ↔ 256 ≤ self.now.entries.count }
    {
        256 <= self.entries.count
    }

    // A new key behind the others.
    fn append(&mut self, key: RegisterKey, v: NodeIndex)
        requires room { self.old.entries.count < 256 }
        requires is_new { has_key (keyed key v.0) (entries_of self.old.entries) ≡ false }
        ensures { self.new.entries ≡ with_entries self.old.entries (put (keyed key v.0) (entries_of self.old.entries)) }
    {
        let n = self.entries.count;
        self.entries.name[n] = key.name;
        self.entries.index[n] = key.index;
        self.entries.node[n] = v.0;
        self.entries.count = n + 1;
        // A cast: n is below 256.
        self.hints[hint_cell(key)] = n as u8;
    }

    // The key becomes v: whether it is new.
    fn put(&mut self, key: RegisterKey, v: NodeIndex) -> Result<bool, NoRoom>
        ensures map { Becomes result self.old.entries self.new.entries (put (keyed key v.0) (entries_of self.old.entries)) }
        ensures is_new { IfOk result (λ is_new. has_key (keyed key v.0) (entries_of self.old.entries) ≡ not is_new) }
    {
        if let Some(p) = self.find(key) {
            self.entries.node[p] = v.0;
            return Ok(false);
        }
        if self.is_full() {
            return Err(NoRoom);
        }
        self.append(key, v);
        Ok(true)
    }

    // Which of the definition's keys stand; each of those becomes its node. By position, here and below: an entry
    // stands in three columns.
    fn mark(&mut self, d: Definition) -> [bool; 256]
        ensures { Standing d.name d.length d.v.0 self.old.entries self.new.entries result }
    {
        let mut there = [false; 256];
        for p in 0..self.entries.count {
            if self.entries.name[p] == d.name && self.entries.index[p] < d.length {
                self.entries.node[p] = d.v.0;
                there[usize::from(self.entries.index[p])] = true;
            }
        }
        there
    }

    // The definition's keys that are not marked, behind the others. An array of 256, the most that a definition has, as
    // the index of a key below it.
    fn append_unmarked(&mut self, there: &[bool; 256], d: Definition) -> Result<(), NoRoom>
        requires { Marked d.name d.length d.v.0 (entries_of self.old.entries) there.now }
        ensures { Becomes result self.old.entries self.new.entries (put_all (definition d.name d.v.0 d.length 0) (entries_of self.old.entries)) }
    {
        let name = d.name;
        for index in 0..d.length {
            if !there[usize::from(index)] {
                if self.is_full() {
                    return Err(NoRoom);
                }
                self.append(RegisterKey { name, index }, d.v);
            }
        }
        Ok(())
    }

    // The definition's keys become its node. Not by a `put` of each: an absent key is compared with every entry.
    fn define(&mut self, d: Definition) -> Result<(), NoRoom>
        ensures { Becomes result self.old.entries self.new.entries (put_all (definition d.name d.v.0 d.length 0) (entries_of self.old.entries)) }
    {
        let there = self.mark(d);
        self.append_unmarked(&there, d)
    }

    // All or AllQubits of a name: only the keys of the name stay, all now v. What stands behind them stays.
    fn keep_name(&mut self, name: u8, v: NodeIndex)
        ensures { self.new.entries ≡ with_entries self.old.entries (of_name name v.0 (entries_of self.old.entries)) }
    {
        let count = self.entries.count;
        self.entries.count = 0;
        for p in 0..count {
            if self.entries.name[p] == name {
                let index = self.entries.index[p];
                self.append(RegisterKey { name, index }, v);
            }
        }
    }
}

// near and far stand as two parameters, as the two ends do in crate links.
// A Set of c keys: each becomes v in the near map, and in the far map too if it was absent in the near one.
fn set_keys(
    part: &[u8],
    c: u8,
    v: NodeIndex,
    near: &mut RegisterMap,
    far: &mut RegisterMap,
) -> Result<(), NoRoom>
    ensures { let r = registers_by (Set c) part.now v.0 (maps_of near.old.entries far.old.entries) in
        BothBecome result r near.old.entries far.old.entries near.new.entries far.new.entries }
{
    for k in 0..usize::from(c) {
        let key = file::register_key(part, k);
        if near.put(key, v)? {
            far.put(key, v)?;
        }
    }
    Ok(())
}

// What a record that became node v does to the register maps, near being the one at the end of the insertion.
fn enter_maps(
    part: &[u8],
    v: NodeIndex,
    near: &mut RegisterMap,
    far: &mut RegisterMap,
) -> Result<(), NoRoom>
    ensures { let r = registers_after part.now v.0 (maps_of near.old.entries far.old.entries) in
        BothBecome result r near.old.entries far.old.entries near.new.entries far.new.entries }
{
    match file::involved_classical(part) {
        InvolvedClassical::None => Ok(()),
        InvolvedClassical::All(name) | InvolvedClassical::AllQubits(name) => {
            near.keep_name(name, v);
            Ok(())
        }
        InvolvedClassical::Set(c) => set_keys(part, c, v, near, far),
        InvolvedClassical::Definition(name, length) => {
            let d = Definition::of(name, length, v)?;
            near.define(d)?;
            far.define(d)
        }
    }
}

// What a record that became node v does to the register maps: at the back last is near, at the front first.
pub(crate) fn enter_record(
    part: &[u8],
    v: NodeIndex,
    first: &mut RegisterMap,
    last: &mut RegisterMap,
) -> Result<(), NoRoom>
    ensures { let r = maps_after part.now v.0 first.old.entries last.old.entries in
        EndsBecome result (front part.now) r first.old.entries last.old.entries first.new.entries last.new.entries }
{
    if file::is_front(part) {
        enter_maps(part, v, first, last)
    } else {
        enter_maps(part, v, last, first)
    }
}
