// The section as a whole: its head, the texture names, and the contents.
ghost use Rattle.std.specs.Prelude.{◌≡◌, List, ℕ, get_or, length};
ghost use Rattle.std.proofs.lemmas.List.Edits.{sets};
ghost use Rattle.bflan.specs.Judge.{next_text, times, wide};
ghost use Rattle.bflan.specs.pai1.Judge.{section};
ghost use Rattle.bflan.specs.Layout.{number, bytes, ◌⨾◌, written, ended};
ghost use Rattle.bflan.specs.pai1.Layout.{section_lay};
ghost use Rattle.bflan.specs.pai1.Reading.{own_bytes};
ghost use Rattle.bflan.specs.inner.Pen.{HasNext, Ready, laid, behind};
ghost use Rattle.bflan.specs.inner.LayoutParts.{frame_lay, names_lay};

use crate::judge::word::word_of;
use crate::reader::section::PAI1;
use crate::writer::Writer;
use crate::writer::field::distance;
use crate::writer::listed::Part;
use base::fill::align4;
use base::number::write;
use base::placeholder::{Placeholder32, patch_u32, write_placeholder_u32};

// The texture names of a record.
#[derive(Clone, Copy)]
struct Textures;

impl Part for Textures {
    ghost Value = { List ℕ };

    ghost lay = { ended };

    ghost judged = { λ _. next_text (wide 4) };

    fn put(self, w: &mut Writer<'_, '_>) {
        w.put_ended();
    }
}

impl Writer<'_, '_> {
    // The `n` texture names of a section, behind the table of their offsets, and zeros up to a multiple of 4.
    fn put_names(&mut self, n: usize)
        requires { (self.old.at ≡ 20) × HasNext names_lay (times n (next_text (wide 4))) self.old }
        ensures { self.new ≡ behind names_lay (times n (next_text (wide 4))) self.old }
    {
        self.put_listed(Textures, n, 20);
        let at = self.at;
        let pad = align4(self.out, at);
        self.at = at + pad;
    }
}

// The letters, the place of the size, and what is behind them by the first four words; that place.
fn put_start(words: &[u32], out: &mut [u8]) -> Placeholder32
    ensures { (result.0 ≡ 4) × (out.new ≡ sets out.old 0 (written (bytes own_bytes ⨾ number 4 0 ⨾ frame_lay (get_or words.now 0 0) (get_or words.now 1 0) (get_or words.now 2 0) (get_or words.now 3 0)))) }
{
    write::<u32>(out, 0, PAI1);
    let size = write_placeholder_u32(out, 4);
    let frames = word_of(words, 0);
    let looping = word_of(words, 1);
    let textures = word_of(words, 2);
    let contents = word_of(words, 3);
    write::<u16>(out, 8, frames);
    write::<u8>(out, 10, looping);
    write::<u8>(out, 11, 0);
    write::<u16>(out, 12, textures);
    write::<u16>(out, 14, contents);
    size
}

// A section, at the start of `out`.
pub(crate) fn put_section<'r>(words: &'r [u32], texts: &'r [u8], out: &mut [u8])
    requires { Ready section_lay (section words.now texts.now 0 0) 0 (length out.old) }
    ensures { out.new ≡ laid section_lay (section words.now texts.now 0 0) 0 out.old }
{
    let size = put_start(words, out);
    let table = write_placeholder_u32(out, 16);
    let nt = word_of(words, 2);
    let nc = word_of(words, 3);
    let mut w = Writer {
        words,
        texts,
        out,
        word: 4,
        byte: 0,
        at: 20,
    };
    w.put_names(nt as usize);
    let first = w.at;
    patch_u32(w.out, table, distance(0, first));
    w.put_contents(nc as usize, 0);
    let end = w.at;
    patch_u32(w.out, size, distance(0, end));
}
