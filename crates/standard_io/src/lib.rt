// Standard input, of one file or several, and the programs `blocks` and `blocks_both_ends` as one function, so that every
// program that is run on an input runs this one.
#![tactic(auto)]

ghost use Rattle.std.specs.Prelude.{◌≤◌, length};
ghost use Rattle.standard_io.specs.Printing.{Printed, PrintedBy};

mod entries;
mod files;

pub use entries::{Answer, Entries};
pub use files::Files;
use links::LoadingRule;
use report::Text;
use std::io::Read;

// Standard input's first 65,536 bytes, or all where they are fewer, in the lent array. A read that fails ends the input.
// A loop, since std's whole reads want a heap or say too little after a failure; it counts what each read gave.
pub fn read_file<'a>(rt: &impl Input, file: &'a mut [u8; 65536]) -> &'a [u8]
    ensures { length result.now ≤ 65536 }
{
    let mut input = rt.reader();
    let mut n: usize = 0;
    while n < 65536 {
        let read = input.read(&mut file[n..]).unwrap_or(0);
        if read == 0 {
            break;
        }
        n += read;
    }
    &file[..n]
}

// A circuit file on standard input, of which the first 65,536 bytes count, loaded in either way; its blocks, or its refusal, on standard
// output. The text is returned too, since no contract can speak of what is written, nor of whether it could be.
pub fn print_blocks_by(rt: &(impl Input + Print), rule: LoadingRule) -> Text
    ensures { PrintedBy rule result }
{
    let mut file = [0; 65536];
    let text = report::blocks_text_by(rule, read_file(rt, &mut file));
    let _ = rt.write_all(text.as_bytes());
    text
}

// The program `blocks`: document 01's call, whose clause names no rule.
pub fn print_blocks(rt: &(impl Input + Print)) -> Text
    ensures { Printed result }
{
    print_blocks_by(rt, LoadingRule::NearAll)
}
