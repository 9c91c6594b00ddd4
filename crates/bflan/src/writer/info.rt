// Infos: eight bytes, and then targets behind their offsets, or extended data.
ghost use Rattle.std.specs.Prelude.{◌≡◌, ◌+◌, ◌-◌, ◌*◌, ◌<◌, ◌≤◌, length, get_or};
ghost use Rattle.std.proofs.lemmas.List.Edits.{sets};
ghost use Rattle.bflan.specs.Judge.{times};
ghost use Rattle.bflan.specs.pai1.Judge.{info};
ghost use Rattle.bflan.specs.Layout.{written};
ghost use Rattle.bflan.specs.pai1.Layout.{info_head, info_lay};
ghost use Rattle.bflan.specs.pai1.Letters.{fleu};
ghost use Rattle.bflan.specs.inner.Pen.{HasNext, behind, next, listed};
ghost use Rattle.bflan.specs.inner.LayoutParts.{out_of, out_by};

use crate::judge::word::word_of;
use crate::letters::FLEU;
use crate::writer::Writer;
use crate::writer::field::{distance, put_counts};
use base::number::write;
use base::placeholder::{patch_u32, placeholder_of, write_placeholders_u32};

// The letters and the count.
fn put_head(out: &mut [u8], at: usize, letters: u32, n: u32)
    requires { at + 8 ≤ 16777216 }
    ensures { out.new ≡ sets out.old at (written (info_head letters n)) }
{
    write::<u32>(out, at, letters);
    put_counts(out, at + 4, n, 0);
}

// What the total size of a User content leaves out of the info at word `i`, whose texts are from `from` to `to`: five bytes and the key for
// each datum.
#[tactic(auto, using(crate::proofs::writer::LayoutParts::out_other, crate::proofs::writer::LayoutParts::out_extended), unfolding(crate::specs::pai1::Letters::fleu, base::specs::Number::val))]
fn left_out(words: &[u32], i: usize, from: usize, to: usize) -> usize
    requires { (i < length words.now) × (out_by words.now i from to ≤ 16777216) × (get_or words.now i 0 ≡ fleu → from ≤ to) }
    ensures { result ≡ out_by words.now i from to }
{
    if word_of(words, i) != FLEU {
        return 0;
    }
    let n = word_of(words, i + 1);
    5 * (n as usize) + (to - from)
}

impl Writer<'_, '_> {
    // An info from the next word on.
    fn put_info(&mut self)
        requires { HasNext info_lay info self.old }
        ensures { self.new ≡ behind info_lay info self.old }
    {
        let i = self.word;
        let at = self.at;
        let letters = word_of(self.words, i);
        let n = word_of(self.words, i + 1);
        put_head(self.out, at, letters, n);
        self.word = i + 2;
        self.at = at + 8;
        if letters == FLEU {
            self.put_data(n as usize);
            return;
        }
        self.put_targets(letters, n as usize, at);
    }

    // The `n` infos of a content from the next word on, behind the table of their offsets, which count from `base`. What the total size of a User
    // content leaves out of them.
    pub(crate) fn put_infos(&mut self, n: usize, base: usize) -> usize
        requires { (base ≤ self.old.at) × HasNext (listed info_lay (self.old.at + 4 * n - base)) (times n info) self.old }
        ensures { (self.new ≡ behind (listed info_lay (self.old.at + 4 * n - base)) (times n info) self.old)
            × (result ≡ out_of (next (times n info) self.old)) }
    {
        let table = write_placeholders_u32(self.out, self.at, n);
        self.at += 4 * n;
        let mut gone: usize = 0;
        // Kept: a loop of its own beside `put_listed`, since it counts what is left out by the texts before and behind each info. A `Part` with a
        // count that changes would owe laws of it that no other part has.
        for i in 0..n {
            patch_u32(self.out, placeholder_of(table, i), distance(base, self.at));
            let word = self.word;
            let byte = self.byte;
            self.put_info();
            gone += left_out(self.words, word, byte, self.byte);
        }
        gone
    }
}
