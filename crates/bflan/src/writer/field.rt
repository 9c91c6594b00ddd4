// Fields of the section that is written, and the texts that it takes over. What would stand past the end is dropped.
ghost use Rattle.std.specs.Prelude.{◌≡◌, ◌+◌, ◌-◌, ◌<◌, ◌≤◌, length, take, drop};
ghost use Rattle.std.proofs.lemmas.List.Edits.{sets};
ghost use Rattle.bflan.specs.Judge.{next_text, wide};
ghost use Rattle.bflan.specs.Layout.{number, ◌⨾◌, written, ended};
ghost use Rattle.bflan.specs.inner.Pen.{HasNext, behind};

use crate::judge::word::word_of;
use crate::writer::Writer;
use base::fill::copy;
use base::number::write;

// Two bytes and a reserve of two.
pub(crate) fn put_counts(out: &mut [u8], at: usize, a: u32, b: u32)
    requires { at ≤ 16777216 }
    ensures { out.new ≡ sets out.old at (written (number 1 a ⨾ number 1 b ⨾ number 2 0)) }
{
    write::<u8>(out, at, a);
    write::<u8>(out, at + 1, b);
    write::<u16>(out, at + 2, 0);
}

// How far `to` is from `from`. (A place that was held for it is handed to `patch_u32` alone.)
pub(crate) fn distance(from: usize, to: usize) -> u32
    requires { (from ≤ to) × (to < 4294967296) }
    ensures { result ≡ to - from }
{
    // Kept: a cast. The distance fits, which is proved; `u32::try_from(to - from).unwrap()` says no more. (With its test writing took 1 to 3 % longer.)
    (to - from) as u32
}

// The `n` bytes of the texts from `from` on.
pub(crate) fn put_chars(texts: &[u8], from: usize, n: usize, out: &mut [u8], at: usize)
    requires { from + n ≤ length texts.now }
    ensures { out.new ≡ sets out.old at (take n (drop from texts.now)) }
{
    let end = from + n;
    copy(&texts[from..end], out, at);
}

impl Writer<'_, '_> {
    // A text and its zero.
    pub(crate) fn put_ended(&mut self)
        requires { HasNext ended (next_text (wide 4)) self.old }
        ensures { self.new ≡ behind ended (next_text (wide 4)) self.old }
    {
        let at = self.at;
        let n = word_of(self.words, self.word) as usize;
        put_chars(self.texts, self.byte, n, self.out, at);
        write::<u8>(self.out, at + n, 0);
        self.word += 1;
        self.byte += n;
        self.at = at + n + 1;
    }
}
