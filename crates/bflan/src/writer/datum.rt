// Extended data: five numbers, values, and a key text.
ghost use Rattle.std.specs.Prelude.{◌≡◌, ◌+◌, ◌*◌, ◌≤◌, length, get_or};
ghost use Rattle.std.proofs.lemmas.List.Edits.{sets};
ghost use Rattle.bflan.specs.Judge.{times};
ghost use Rattle.bflan.specs.pai1.Judge.{datum};
ghost use Rattle.bflan.specs.Layout.{written, parts};
ghost use Rattle.bflan.specs.pai1.Layout.{datum_lay};
ghost use Rattle.bflan.specs.inner.Pen.{HasNext, behind};
ghost use Rattle.bflan.specs.inner.LayoutParts.{datum_head, datum_front};

use crate::judge::word::word_of;
use crate::writer::Writer;
use base::number::write;
use base::run::write_numbers;

// The five numbers, by their words.
fn put_head(words: &[u32], i: usize, out: &mut [u8], at: usize)
    requires { (i + 5 ≤ length words.now) × (at + 16 ≤ 16777216) }
    ensures { out.new ≡ sets out.old at (written (datum_head (get_or words.now i 0) (get_or words.now (i + 1) 0) (get_or words.now (i + 2) 0) (get_or words.now (i + 3) 0) (get_or words.now (i + 4) 0))) }
{
    let size = word_of(words, i);
    let one = word_of(words, i + 1);
    let two = word_of(words, i + 2);
    let base = word_of(words, i + 3);
    let three = word_of(words, i + 4);
    write::<u32>(out, at, size);
    write::<u16>(out, at + 4, one);
    write::<u16>(out, at + 6, two);
    write::<u32>(out, at + 8, base);
    write::<u32>(out, at + 12, three);
}

impl Writer<'_, '_> {
    // What is before the key: the numbers, the values, and the key's offset, which counts from its own place.
    fn put_front(&mut self)
        requires { (self.old.word + 5 + 3 * get_or self.old.words.now (self.old.word + 3) 0 ≤ length self.old.words.now) × (self.old.at + 20 + 4 * (3 * get_or self.old.words.now (self.old.word + 3) 0) ≤ 16777216) }
        ensures { self.new ≡ record self.old {
          word = self.old.word + 5 + 3 * get_or self.old.words.now (self.old.word + 3) 0;
          at = self.old.at + (20 + 4 * (3 * get_or self.old.words.now (self.old.word + 3) 0));
          out = record self.old.out { now = sets self.old.out.now self.old.at (written (datum_front self.old.words.now self.old.word)) };
        } }
    {
        let i = self.word;
        let at = self.at;
        put_head(self.words, i, self.out, at);
        let base = word_of(self.words, i + 3);
        let n = 3 * (base as usize);
        write_numbers(self.words, i + 5, n, self.out, at + 16);
        let key = at + 16 + 4 * n;
        write::<u32>(self.out, key, 4);
        self.word = i + 5 + n;
        self.at = key + 4;
    }

    // A datum from the next word on.
    fn put_datum(&mut self)
        requires { HasNext datum_lay datum self.old }
        ensures { self.new ≡ behind datum_lay datum self.old }
    {
        self.put_front();
        self.put_ended();
    }

    // `n` data from the next word on.
    pub(crate) fn put_data(&mut self, n: usize)
        requires { HasNext (parts datum_lay) (times n datum) self.old }
        ensures { self.new ≡ behind (parts datum_lay) (times n datum) self.old }
    {
        for _ in 0..n {
            self.put_datum();
        }
    }
}
