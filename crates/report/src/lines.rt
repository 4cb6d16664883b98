// The lines of a file's blocks, and its refusal, behind what a writer holds.
ghost use Rattle.std.specs.Prelude.{◌≡◌, ◌++◌, ◌+◌, ◌≤◌, length};
ghost use Rattle.report.specs.Lines.{in_block, numbers_text};
ghost use Rattle.report.specs.Text.{nodes_text, line_text, at_text, refused_text, file_text_by, file_text, text_of};

use crate::Text;
use crate::writer::Writer;
use file::Refusal;
use links::LoadingRule;

impl Writer {
    // A space and its number for each node v with numbers[v] == t.
    fn write_nodes(&mut self, numbers: &[u16], t: usize)
        requires { length self.old + length (nodes_text (in_block numbers.now (length numbers.now) t)) ≤ 5120 }
        ensures { self.new ≡ self.old ++ nodes_text (in_block numbers.now (length numbers.now) t) }
    {
        for (v, number) in numbers.iter().enumerate() {
            if usize::from(*number) == t {
                self.push(b' ');
                self.write_number(v);
            }
        }
    }

    // The line of block t.
    fn write_line(&mut self, numbers: &[u16], t: usize)
        requires { length self.old + length (line_text t (in_block numbers.now (length numbers.now) t)) ≤ 5120 }
        ensures { self.new ≡ self.old ++ line_text t (in_block numbers.now (length numbers.now) t) }
    {
        self.write_number(t);
        self.push(b':');
        self.write_nodes(numbers, t);
        self.push(b'\n');
    }

    // "`blocks 2`", and the lines of the blocks by the numbers of the records.
    fn write_blocks(&mut self, numbers: &[u16], count: usize)
        requires { length self.old + length (numbers_text numbers.now (length numbers.now) count) ≤ 5120 }
        ensures { self.new ≡ self.old ++ numbers_text numbers.now (length numbers.now) count }
    {
        self.write(b"blocks ");
        self.write_number(count);
        self.push(b'\n');
        for t in 0..count {
            self.write_line(numbers, t);
        }
    }

    // "with ` at I` where the table has a record or pair"
    fn write_value(&mut self, value: Option<usize>)
        requires { length self.old + length (at_text value) ≤ 5120 }
        ensures { self.new ≡ self.old ++ at_text value }
    {
        if let Some(i) = value {
            self.write(b" at ");
            self.write_number(i);
        }
    }

    // "`refused N`, with ` at I` where the table has a record or pair". The words stand in crate file too, in Refusal's
    // Display, which writes to a `fmt::Write`: an impl of it here, whose writes may fail, would be no plainer.
    fn write_refusal(&mut self, r: Refusal)
        requires { length self.old + length (refused_text r) ≤ 5120 }
        ensures { self.new ≡ self.old ++ refused_text r }
    {
        self.write(b"refused ");
        self.write_number(usize::from(file::refusal_number(r)));
        self.write_value(file::refusal_value(r));
        self.push(b'\n');
    }
}

// The blocks of a file that is loaded in either way, or its refusal.
pub fn blocks_text_by(rule: LoadingRule, file: &[u8]) -> Text
    ensures value { result ≡ text_of (file_text_by rule file.now) }
    ensures length_in_bounds { result.length ≤ length result.bytes }
{
    let mut numbers = [65535; 512];
    let counted = schedule::schedule_by(rule, file, &mut numbers);
    let mut text = Writer::new();
    match counted {
        Ok(count) => text.write_blocks(&numbers[..file::record_count(file)], count),
        Err(r) => text.write_refusal(r),
    }
    text.into_text()
}

// What the program `blocks` prints for a file: document 01's call, whose clause names no rule.
pub fn blocks_text(file: &[u8]) -> Text
    ensures value { result ≡ text_of (file_text file.now) }
    ensures length_in_bounds { result.length ≤ length result.bytes }
{
    blocks_text_by(LoadingRule::NearAll, file)
}
