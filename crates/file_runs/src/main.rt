// Runs of the circuit file: every prefix and every change of one byte of a small good file, the limits, and slack
// between the parts. Each distinct answer is printed with how often it came; tools/file_answers.py prints the same
// from the documents alone.
#![tactic(auto)]

ghost use Rattle.std.specs.Prelude.{◌<◌, ◌≤◌};
ghost use Rattle.file.specs.Pairs.{Part, locate_record};

use file::{Place, Refusal};
use std::io;

// Seven records, of each register form, at both ends.
const GOOD: [u8; 141] = [
    7, 0, 30, 0, 14, 0, 44, 0, 21, 0, 65, 0, 17, 0, 82, 0, 15, 0, 97, 0, 15, 0, 112, 0, 15, 0, 127,
    0, 14, 0, 0, 0, 2, 1, 0, 0, 0, 0, 0, 0, 0, 0, 0, 0, 1, 0, 2, 2, 0, 0, 0, 0, 0, 0, 128, 3, 1, 2,
    2, 1, 0, 0, 1, 0, 1, 0, 1, 0, 0, 0, 0, 0, 0, 0, 0, 0, 4, 0, 0, 1, 44, 1, 0, 0, 1, 0, 0, 0, 0,
    0, 0, 0, 0, 1, 0, 0, 2, 1, 5, 0, 0, 0, 0, 0, 0, 0, 0, 0, 2, 0, 0, 255, 0, 5, 0, 0, 0, 0, 0, 0,
    0, 0, 0, 3, 0, 0, 0, 0, 0, 0, 0, 0, 0, 0, 0, 0, 0, 0, 0, 0, 0,
];

// Three records with slack before, between and behind them.
const SLACK: [u8; 72] = [
    3, 0, 17, 0, 14, 0, 36, 0, 17, 0, 54, 0, 14, 0, 255, 255, 255, 0, 0, 2, 1, 0, 0, 0, 0, 0, 0, 0,
    0, 0, 0, 255, 255, 255, 255, 255, 0, 1, 0, 0, 0, 0, 0, 0, 0, 0, 0, 4, 0, 0, 1, 44, 1, 255, 0,
    0, 0, 0, 0, 0, 0, 0, 0, 0, 0, 0, 0, 0, 255, 255, 255, 255,
];

// Record i's bytes, by the record reader; none where it refuses.
fn read_bytes<'a>(file: &'a [u8], i: usize) -> &'a [u8]
    ensures { Part file.entry result (locate_record file.now i) }
{
    file::read_record(file, i).bytes
}

// The first refusal in checking a file and parsing its records in order, by their numbers: a refusal has its record's.
fn parse_all(file: &[u8]) -> Result<(), Refusal> {
    file::check_file(file)?;
    for k in 0..file::record_count(file) {
        file::parse_record(read_bytes(file, k)).map_err(|cause| file::at_record(k, cause))?;
    }
    Ok(())
}

// What is tried with a file: parsing all its records, or reading one. No Option of a number: None would not say that
// all are parsed.
#[derive(Clone, Copy)]
enum Trial {
    Parse,
    Read(usize),
}

// How often each answer came, on files of seven records: slot 0 for acceptance, else 8 times the number plus the pair
// or record, 7 where there is none. A table, since a map would need a heap.
#[derive(Drop)]
struct Counts([u32; 104]);

// The slot of an answer.
fn slot(answer: Result<(), Refusal>) -> usize
    ensures { result < 104 }
{
    match answer {
        Ok(()) => 0,
        Err(r) => {
            let number = usize::from(file::refusal_number(r));
            let value = file::refusal_value(r).map_or(7, |i| i % 8);
            (number * 8 + value) % 104
        }
    }
}

impl Counts {
    // Tries a file, and counts its answer.
    fn count(&mut self, file: &[u8], trial: Trial) {
        let answer = match trial {
            Trial::Parse => parse_all(file),
            Trial::Read(i) => file::locate_record(file, i).map(|_| ()),
        };
        let k = slot(answer);
        self.0[k] = self.0[k].saturating_add(1);
    }

    // Tries the good file with every other byte at a place.
    fn count_changes_at(&mut self, at: usize, trial: Trial)
        requires { at < 141 }
    {
        let mut file = GOOD;
        for b in 0..=255u8 {
            if b != GOOD[at] {
                file[at] = b;
                self.count(&file, trial);
            }
        }
    }

    fn print(&self, rt: &impl Print) -> io::Result<()> {
        for (k, times) in self.0.iter().enumerate() {
            if *times != 0 {
                print_answer(rt, k / 8, k % 8)?;
                println!(rt; ": {times}")?;
            }
        }
        Ok(())
    }
}

// The answer of a slot, from its numbers: the refusal itself is not kept.
fn print_answer(rt: &impl Print, number: usize, at: usize) -> io::Result<()> {
    if number == 0 {
        print!(rt; "accepted")?;
        return Ok(());
    }
    print!(rt; "refused {number}")?;
    if at < 7 {
        print!(rt; " at {at}")?;
    }
    Ok(())
}

// Every prefix of the good file.
fn count_prefixes(trial: Trial) -> Counts {
    let mut counts = Counts([0; 104]);
    for n in 0..=141 {
        counts.count(&GOOD[..n], trial);
    }
    counts
}

// Every change of one byte.
fn count_changes(trial: Trial) -> Counts {
    let mut counts = Counts([0; 104]);
    for at in 0..141 {
        counts.count_changes_at(at, trial);
    }
    counts
}

// A file of n records of 14 zero bytes in a larger array: the header and pair k, then zeros. By number, here and in
// a list's file: a pair's fields and an entry's are written from it.
fn zero_records(n: u16) -> [u8; 9237]
    requires { n ≤ 513 }
{
    let mut file = [0; 9237];
    writing::put_u16(&mut file, 0, n);
    for k in 0..n {
        let pair = usize::from(2 + 4 * k);
        writing::put_u16(&mut file, pair, 2 + 4 * n + 14 * k);
        writing::put_u16(&mut file, pair + 2, 14);
    }
    file
}

// A record's register list: its count byte, and how many entries there are.
#[derive(Clone, Copy)]
struct Listing {
    count: u8,
    entries: u8,
    ghost room: { entries ≤ 26 },
}

impl Listing {
    fn of(count: u8, entries: u8) -> Listing
        requires { entries ≤ 26 }
    {
        Listing { count, entries }
    }

    // A file of one record of this length in a larger array: the count byte, then the entries (1, 0), (1, 1), ..
    fn file(self, length: u8) -> [u8; 99] {
        let mut file = [0; 99];
        file[0] = 1;
        file[2] = 6;
        file[4] = length;
        file[17] = 3;
        file[20] = self.count;
        for k in 0..self.entries {
            file[usize::from(21 + 3 * k)] = 1;
            file[usize::from(22 + 3 * k)] = k;
        }
        file
    }

    // One line: the count byte, how many entries there are, what else is to say, and the answer to such a record.
    fn print(self, rt: &impl Print, length: u8, more: &str) -> io::Result<()> {
        print!(rt; "{} and {}", self.count, self.entries)?;
        print_limit(rt, more, &self.file(length), 6 + usize::from(length))
    }

    // The same at the length that fits the entries.
    fn print_fitting(self, rt: &impl Print) -> io::Result<()> {
        self.print(rt, 15 + 3 * self.entries, "")
    }

    // .. and one byte off that length.
    fn print_off(self, rt: &impl Print) -> io::Result<()> {
        self.print(rt, 14 + 3 * self.entries, ", one byte less")?;
        self.print(rt, 16 + 3 * self.entries, ", one byte more")
    }
}

// One line: what it is, then the answer to the file.
fn print_checked(rt: &impl Print, title: &str, file: &[u8]) -> io::Result<()> {
    match parse_all(file) {
        Ok(()) => println!(rt; "{title}: accepted"),
        Err(r) => println!(rt; "{title}: {r}"),
    }
}

// The same of the first n bytes of an array that a call made. That `&full[..n]` is within it was tried in the callers,
// and not proved: the search for it stopped at its limit.
fn print_limit(rt: &impl Print, title: &str, bytes: &[u8], n: usize) -> io::Result<()> {
    let Some(file) = bytes.get(..n) else {
        return Ok(());
    };
    print_checked(rt, title, file)
}

fn print_limits(rt: &impl Print) -> io::Result<()> {
    println!(rt; "limits")?;
    let zeros = [0u8; 3];
    print_checked(rt, "no byte", &zeros[..0])?;
    print_checked(rt, "one byte", &zeros[..1])?;
    print_checked(rt, "no record", &zeros[..2])?;
    print_checked(rt, "no record and a byte", &zeros[..3])?;
    let full = zero_records(512);
    print_limit(rt, "512 records", &full, 9218)?;
    print_limit(rt, "512 records, one byte less", &full, 9217)?;
    print_limit(rt, "512 records, one byte more", &full, 9219)?;
    print_limit(rt, "512 in the header alone", &full, 2)?;
    let over = zero_records(513);
    print_limit(rt, "513 in the header alone", &over, 2)?;
    print_limit(rt, "513 records", &over, 9236)?;
    let most = [255u8; 2];
    print_checked(rt, "65535 in the header alone", &most[..2])
}

// A record's bytes, as the reader hands them back; none where the record is absent.
fn print_record(rt: &impl Print, file: &[u8], i: usize) -> io::Result<()> {
    print!(rt; "record {i}:")?;
    for b in read_bytes(file, i) {
        print!(rt; " {b}")?;
    }
    println!(rt)
}

// Every record of the good file, and the one after the last.
fn print_records(rt: &impl Print) -> io::Result<()> {
    for i in 0..8 {
        print_record(rt, &GOOD, i)?;
    }
    Ok(())
}

// Register lists about their limit, and about the one that K3 raised: the count byte and the entries.
fn print_lists(rt: &impl Print) -> io::Result<()> {
    println!(rt; "register lists")?;
    let fitting = [
        Listing::of(0, 0),
        Listing::of(14, 14),
        Listing::of(15, 15),
        Listing::of(16, 16),
        Listing::of(17, 17),
        Listing::of(16, 15),
        Listing::of(16, 17),
        Listing::of(17, 16),
        Listing::of(17, 18),
        Listing::of(24, 24),
        Listing::of(25, 25),
        Listing::of(24, 23),
        Listing::of(24, 25),
        Listing::of(25, 24),
        Listing::of(25, 26),
    ];
    for list in fitting {
        list.print_fitting(rt)?;
    }
    print_lists_off(rt)
}

// .. whose record is one byte off, and one whose last two entries are the same.
fn print_lists_off(rt: &impl Print) -> io::Result<()> {
    let off = [
        Listing::of(16, 16),
        Listing::of(17, 17),
        Listing::of(24, 24),
        Listing::of(25, 25),
    ];
    for list in off {
        list.print_off(rt)?;
    }
    let mut twice = Listing::of(24, 24).file(87);
    twice[91] = 22;
    print_limit(rt, "24 and 24, the last two the same", &twice, 93)
}

// A file of two records in a larger array, all zeros but its header and pairs, each an offset and a length.
fn two_parts(first: (u16, u16), second: (u16, u16)) -> [u8; 131070] {
    let mut file = [0; 131070];
    file[0] = 2;
    writing::put_u16(&mut file, 2, first.0);
    writing::put_u16(&mut file, 4, first.1);
    writing::put_u16(&mut file, 6, second.0);
    writing::put_u16(&mut file, 8, second.1);
    file
}

// Where the reader finds record i of a file. By a match: a Display of Place would have words that this line alone
// needs.
fn print_place(rt: &impl Print, file: &[u8], i: usize) -> io::Result<()> {
    match file::locate_record(file, i) {
        Ok(Place { offset, length }) => {
            println!(rt; "  record {i}: {length} bytes from {offset} on")
        }
        Err(r) => println!(rt; "  record {i}: {r}"),
    }
}

// The answer to the first n bytes of a file of two records, and where the reader finds them.
fn print_two(
    rt: &impl Print,
    title: &str,
    first: (u16, u16),
    second: (u16, u16),
    n: usize,
) -> io::Result<()> {
    let bytes = two_parts(first, second);
    let Some(file) = bytes.get(..n) else {
        return Ok(());
    };
    print_checked(rt, title, file)?;
    print_place(rt, file, 0)?;
    print_place(rt, file, 1)
}

// K1: "the first offset is at least 2 + 4n, each later one at least the end of the previous part, and the last part ends at or before the file's end".
fn print_slack(rt: &impl Print) -> io::Result<()> {
    println!(rt; "slack")?;
    print_two(rt, "none", (10, 14), (24, 14), 38)?;
    print_two(rt, "before the first part", (11, 14), (25, 14), 39)?;
    print_two(rt, "between the parts", (10, 14), (29, 14), 43)?;
    print_two(rt, "behind the last part", (10, 14), (24, 14), 39)?;
    print_two(rt, "before, between and behind", (13, 14), (32, 14), 131070)
}

// Where that is broken, and parts of length 0.
fn print_breaches(rt: &impl Print) -> io::Result<()> {
    print_two(rt, "the first part in the table", (9, 14), (24, 14), 38)?;
    print_two(rt, "the second part in the first", (10, 14), (23, 14), 38)?;
    print_two(
        rt,
        "the second part before the first",
        (24, 14),
        (10, 14),
        38,
    )?;
    print_two(rt, "the first part past the end", (10, 200), (24, 14), 38)?;
    print_two(rt, "the last part past the end", (10, 14), (25, 14), 38)?;
    print_two(rt, "two parts at one offset", (10, 0), (10, 14), 24)?;
    print_two(rt, "the second part of no byte", (10, 14), (24, 0), 24)?;
    print_two(rt, "the second part behind the end", (10, 14), (25, 0), 24)
}

// The same about and after 65,536 bytes: where the second part ends in the file, and a first one whose end has 17 bits.
fn print_long(rt: &impl Print) -> io::Result<()> {
    print_two(rt, "ends at 65536 of 65549", (10, 14), (65522, 14), 65549)?;
    print_two(rt, "ends at 65549 of 65549", (10, 14), (65535, 14), 65549)?;
    print_two(rt, "ends at 65549 of 65548", (10, 14), (65535, 14), 65548)?;
    print_two(
        rt,
        "ends at 131070 of 131070",
        (10, 14),
        (65535, 65535),
        131070,
    )?;
    print_two(
        rt,
        "ends at 131070 of 131069",
        (10, 14),
        (65535, 65535),
        131069,
    )?;
    print_two(
        rt,
        "ends at 66000, next at 464",
        (65000, 1000),
        (464, 14),
        66000,
    )
}

// Every record of the file with slack, the one after the last, and the file cut off behind and in its last part.
fn print_slack_records(rt: &impl Print) -> io::Result<()> {
    for i in 0..4 {
        print_record(rt, &SLACK, i)?;
    }
    print_checked(rt, "72 bytes of it", &SLACK[..72])?;
    print_checked(rt, "68 bytes of it", &SLACK[..68])?;
    print_checked(rt, "67 bytes of it", &SLACK[..67])
}

fn main(rt: HostRuntime) -> io::Result<()> {
    println!(rt; "prefixes, parsed")?;
    count_prefixes(Trial::Parse).print(&rt)?;
    println!(rt; "prefixes, record 6 read")?;
    count_prefixes(Trial::Read(6)).print(&rt)?;
    println!(rt; "prefixes, record 7 read")?;
    count_prefixes(Trial::Read(7)).print(&rt)?;
    println!(rt; "changes of one byte, parsed")?;
    count_changes(Trial::Parse).print(&rt)?;
    println!(rt; "changes of one byte, record 6 read")?;
    count_changes(Trial::Read(6)).print(&rt)?;
    print_limits(&rt)?;
    print_lists(&rt)?;
    print_records(&rt)?;
    print_slack(&rt)?;
    print_breaches(&rt)?;
    print_long(&rt)?;
    print_slack_records(&rt)
}
