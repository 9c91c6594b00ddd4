// Targets: twelve bytes, and the keys behind them.
ghost use Rattle.std.specs.Prelude.{◌≡◌, ◌+◌, ◌-◌, ◌*◌, ◌≤◌, length};
ghost use Rattle.std.proofs.lemmas.List.Edits.{sets};
ghost use Rattle.bflan.specs.Judge.{times, row};
ghost use Rattle.bflan.specs.pai1.Curves.{curve_number};
ghost use Rattle.bflan.specs.pai1.Judge.{target};
ghost use Rattle.bflan.specs.Layout.{written, parts};
ghost use Rattle.bflan.specs.pai1.Layout.{key_lay, target_lay};
ghost use Rattle.bflan.specs.pai1.Record.{AnimTarget, key_widths};
ghost use Rattle.bflan.specs.inner.Pen.{HasNext, behind, listed};
ghost use Rattle.bflan.specs.inner.LayoutParts.{target_head};

use crate::curve::Curve;
use crate::judge::word::word_of;
use crate::writer::Writer;
use crate::writer::listed::Part;
use base::number::write;
use base::run::{write_numbers, write_pairs};

// The layer, the number, the curve and the key count of a target, and the offset of its keys.
// Kept: the curve as the record's word, which is stored as it is. A `Curve` would be made first and turned back here.
fn put_head(out: &mut [u8], at: usize, layer: u32, number: u32, curve: u32, n: u32)
    requires { at + 12 ≤ 16777216 }
    ensures { out.new ≡ sets out.old at (written (target_head layer number curve n)) }
{
    write::<u8>(out, at, layer);
    write::<u8>(out, at + 1, number);
    write::<u8>(out, at + 2, curve);
    write::<u8>(out, at + 3, 0);
    write::<u16>(out, at + 4, n);
    write::<u16>(out, at + 6, 0);
    write::<u32>(out, at + 8, 12);
}

impl Writer<'_, '_> {
    // `n` keys of a curve from the next word on.
    fn put_keys(&mut self, curve: Curve, n: usize)
        requires { (self.old.word ≤ length self.old.words.now) × HasNext (parts (key_lay (curve_number curve))) (times n (row (key_widths (curve_number curve)))) self.old }
        ensures { self.new ≡ behind (parts (key_lay (curve_number curve))) (times n (row (key_widths (curve_number curve)))) self.old }
    {
        let i = self.word;
        let at = self.at;
        match curve {
            Curve::Constant => {
                write_numbers(self.words, i, n, self.out, at);
                self.word = i + n;
                self.at = at + 4 * n;
            }
            Curve::Step => {
                write_pairs(self.words, i, n, self.out, at);
                self.word = i + 2 * n;
                self.at = at + 8 * n;
            }
            Curve::Hermite => {
                write_numbers(self.words, i, 3 * n, self.out, at);
                self.word = i + 3 * n;
                self.at = at + 12 * n;
            }
        }
    }

    // A target from the next word on.
    fn put_target(&mut self, letters: u32)
        requires { HasNext target_lay (target letters) self.old }
        ensures { self.new ≡ behind target_lay (target letters) self.old }
    {
        let i = self.word;
        let at = self.at;
        let layer = word_of(self.words, i);
        let number = word_of(self.words, i + 1);
        let curve = word_of(self.words, i + 2);
        let n = word_of(self.words, i + 3);
        put_head(self.out, at, layer, number, curve, n);
        self.word = i + 4;
        self.at = at + 12;
        self.put_keys(Curve::try_from(curve).unwrap(), n as usize);
    }

    // The `n` targets of an info with these letters from the next word on, behind the table of their offsets, which count from `base`.
    pub(crate) fn put_targets(&mut self, letters: u32, n: usize, base: usize)
        requires { (base ≤ self.old.at) × HasNext (listed target_lay (self.old.at + 4 * n - base)) (times n (target letters)) self.old }
        ensures { self.new ≡ behind (listed target_lay (self.old.at + 4 * n - base)) (times n (target letters)) self.old }
    {
        self.put_listed(Targets { letters }, n, base);
    }
}

// The targets of an info with these letters.
#[derive(Clone, Copy)]
struct Targets {
    letters: u32,
}

impl Part for Targets {
    ghost Value = { AnimTarget };

    ghost lay = { target_lay };

    ghost judged = { λ it. target it.letters };

    fn put(self, w: &mut Writer<'_, '_>) {
        w.put_target(self.letters);
    }
}
