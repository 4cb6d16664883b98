// The nodes of an answer: those that are marked and not skipped.
ghost use Rattle.std.specs.Prelude.{◌≡◌, false, not, ◌&&◌, ◌++◌, ◌+◌, ◌≤◌, ◌<◌, length, get_or};
ghost use Rattle.file.specs.Lists.{onto};
ghost use Rattle.queries.specs.Marks.{kept, without, layer_by};
ghost use Rattle.queries.specs.Queries.{answers};

use crate::answer_list;
use crate::queries::copy_list;
use file::Refusal;

// The nodes below n that are marked and not skipped, ascending.
#[derive(Clone, Copy)]
pub(crate) struct Kept<'a> {
    pub(crate) mark: &'a [bool; 512],
    pub(crate) skip: &'a [bool; 512],
    pub(crate) n: usize,
    ghost few: { n ≤ 512 },
}

impl Kept<'_> {
    // Node u is one of them.
    fn has(&self, u: usize) -> bool
        requires { u < 512 }
        ensures { result ≡ (get_or self.now.mark.now u false && not (get_or self.now.skip.now u false)) }
    {
        self.mark[u] & !self.skip[u]
    }

    // How many they are.
    pub(crate) fn count(&self) -> usize
        ensures { result ≡ length (kept self.now.mark.now self.now.skip.now self.now.n) }
    {
        (0..self.n).filter(|u| self.has(*u)).count()
    }

    // They go over the buffer's first entries.
    fn write(&self, buffer: &mut [u16])
        requires { length (kept self.now.mark.now self.now.skip.now self.now.n) ≤ length buffer.old }
        ensures { buffer.new ≡ onto (kept self.now.mark.now self.now.skip.now self.now.n) buffer.old }
    {
        for (k, u) in (0..self.n).filter(|u| self.has(*u)).enumerate() {
            // No loss: u is below 512.
            buffer[k] = u as u16;
        }
    }

    // The answer of a query whose entries they are.
    pub(crate) fn answer(&self, buffer: &mut [u16]) -> Result<usize, Refusal>
        ensures { record { answer = result; buffer = buffer.new }
            ≡ answers (kept self.now.mark.now self.now.skip.now self.now.n) buffer.old }
    {
        let k = self.count();
        if buffer.len() < k {
            return Err(Refusal::ShortBuffer);
        }
        self.write(buffer);
        Ok(k)
    }

    // The answer of a layer without its entry at index i, followed by these nodes, which are k.
    pub(crate) fn answer_next(
        &self,
        k: usize,
        layer: &[u16],
        i: usize,
        buffer: &mut [u16],
    ) -> Result<usize, Refusal>
        requires { (k ≡ length (kept self.now.mark.now self.now.skip.now self.now.n)) × (i < length layer.now) }
        ensures { record { answer = result; buffer = buffer.new }
            ≡ answers (without i layer.now ++ kept self.now.mark.now self.now.skip.now self.now.n) buffer.old }
    {
        let rest = layer.len() - 1;
        if buffer.len() < rest || buffer.len() - rest < k {
            return Err(Refusal::ShortBuffer);
        }
        copy_list(&layer[..i], &mut buffer[..i]);
        copy_list(&layer[i + 1..], &mut buffer[i..rest]);
        self.write(&mut buffer[rest..]);
        Ok(rest + k)
    }

    // The answer of new_front_layer where there are successors: these nodes are the freed ones.
    pub(crate) fn answer_layer(
        &self,
        layer: &[u16],
        i: usize,
        buffer: &mut [u16],
    ) -> Result<usize, Refusal>
        requires { i < length layer.now }
        ensures { record { answer = result; buffer = buffer.new }
            ≡ answers (layer_by (kept self.now.mark.now self.now.skip.now self.now.n) layer.now i) buffer.old }
    {
        let k = self.count();
        if k == 0 {
            return answer_list(layer, buffer);
        }
        self.answer_next(k, layer, i, buffer)
    }
}
