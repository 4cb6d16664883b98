// An input that holds several files, each behind its length in two bytes, the low one first.
ghost use Rattle.std.specs.Iterator.{YieldsFirstRef, item_count};
ghost use Rattle.standard_io.specs.Files.{files_of};

// What is left of the input: it yields the files one after the other. Where the input ends before a file does, that file
// is left out and nothing follows. Each program has the loop over them in its `main`: one for all would take a closure,
// for which a public function would need a `requires`, or a trait's method, whose impl for each program would be as many
// lines as its `main`.
#[derive(Clone, Copy, Drop)]
pub struct Files<'a>(pub &'a [u8]);

impl<'a> Iterator for Files<'a> {
    type Item = &'a [u8];

    ghost next_gives = { YieldsFirstRef (λ s. files_of s.0.now) };

    ghost remaining = { item_count (λ s. files_of s.0.now) };

    fn next(&mut self) -> Option<&'a [u8]> {
        let [low, high, rest @ ..] = self.0 else {
            return None;
        };
        let size = u16::from_le_bytes([*low, *high]);
        let (file, others) = rest.split_at_checked(usize::from(size))?;
        self.0 = others;
        Some(file)
    }
}
