// What a walk stores: words and texts at the places of its tally.
ghost use Rattle.std.specs.Prelude.{◌≡◌, true, List, ℕ, [], ◌∷◌, ◌+◌, ◌≤◌, length};
ghost use Rattle.std.proofs.Math.Seq.{slice};
ghost use Rattle.bflan.specs.Reader.{word, text};
ghost use Rattle.bflan.specs.Items.{shown_at};
ghost use Rattle.bflan.specs.inner.Walk.{after};

use crate::reader::tally::Tables;
use crate::section::Section;
use base::run::put_word;
use base::utf8::decode_known;

impl Tables<'_> {
    #[tactic(auto, using(crate::proofs::reader::Emits::after_one))]
    pub(crate) fn put1(&mut self, a: u32)
        ensures { (s : List ℕ) → self.new ≡ after s self.old (word a ∷ []) }
    {
        put_word(self.words, self.tally.words, a);
        self.tally.add_words(1);
    }

    // Where the table is full, one test turns both away. Otherwise `put_word` tests each.
    #[tactic(auto, using(crate::proofs::reader::Emits::after_two, crate::proofs::reader::Emits::two_stores, base::proofs::Stores::sets_out))]
    pub(crate) fn put2(&mut self, a: u32, b: u32)
        ensures { (s : List ℕ) → self.new ≡ after s self.old (word a ∷ word b ∷ []) }
    {
        let at = self.tally.words;
        self.tally.add_words(2);
        if self.words.len() <= at {
            return;
        }
        put_word(self.words, at, a);
        put_word(self.words, at + 1, b);
    }

    // The text of `len` bytes at `start`, decoded, and its decoded length among the words; the U+FFFD put in are added to those of the tally. `plain`
    // says of a text that it is shown as it is.
    // Kept: `plain` is a truth value, since base's `decode_known` takes it as one. An enum would have to be turned into one here.
    #[inline(always)]
    pub(crate) fn put_text(&mut self, s: Section, start: usize, len: usize, plain: bool)
        requires { (start + len ≤ length s.bytes.now) × (plain ≡ true → shown_at s.bytes.now start len ≡ slice start (start + len) s.bytes.now) }
        ensures { self.new ≡ after s.entry.bytes.now self.old (text start len ∷ []) }
    {
        let end = start + len;
        let mut replaced: usize = 0;
        let size = decode_known(
            &s.bytes[start..end],
            plain,
            self.texts,
            self.tally.bytes,
            self.tally.replaced,
            &mut replaced,
        );
        // Kept: a cast. The size fits, which is proved; `u32::try_from(size).unwrap()` says no more, and tests each text.
        put_word(self.words, self.tally.words, size as u32);
        self.tally.add_text(start, len, size, replaced);
    }
}
