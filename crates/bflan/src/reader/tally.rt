// Where a walk over a section stores what it reads, and what it has counted.
ghost use Rattle.std.specs.Prelude.{◌≡◌, ◌+◌, ◌≤◌, min};
ghost use Rattle.bflan.specs.inner.Walk.{sat, empty_tally, with_words, with_text};

use crate::fault::Fault;

// Words and text bytes so far, which are also the places of the next ones, and U+FFFD put in so far; how many texts come before the one that is
// wanted; and that one's place and length, once it was met. `left` counts down, from 0 to the largest usize: no section has so many texts that it
// comes to 0 twice. A count that a usize does not hold stays at the largest one.
// Kept: `start` and `len` in no `Option`. It would say again what `left` tells, and an enum of the three would be matched at each text.
#[derive(Clone, Copy)]
pub struct Tally {
    pub words: usize,
    pub bytes: usize,
    pub replaced: usize,
    pub left: usize,
    pub start: usize,
    pub len: usize,
}

// The tables that a walk stores in, at the places that its tally has. What would stand past a table's end is dropped.
#[derive(Drop)]
pub struct Tables<'w> {
    pub words: &'w mut [u32],
    pub texts: &'w mut [u8],
    pub tally: Tally,
}

// A walk goes on at a position, or is stopped.
pub(crate) type Walk = Result<usize, Fault>;

pub(crate) fn fresh(want: usize) -> Tally
    ensures { result ≡ empty_tally want }
{
    Tally {
        words: 0,
        bytes: 0,
        replaced: 0,
        left: want,
        start: 0,
        len: 0,
    }
}

impl Tally {
    // `n` words more. A caller's proof does not know that a field holds no more than a usize does, so the second promise says it.
    #[tactic(auto, unfolding(crate::specs::inner::Walk::with_words))]
    pub(crate) fn add_words(&mut self, n: usize)
        ensures { (self.new ≡ with_words self.old n) × (self.old.words ≤ 18446744073709551615) }
    {
        self.words = self.words.saturating_add(n);
    }

    // A text more, at `start` with `len` bytes in the section and `size` bytes decoded. `replaced` is the sum with this text's U+FFFD.
    #[tactic(auto, unfolding(crate::specs::inner::Walk::with_text))]
    pub(crate) fn add_text(&mut self, start: usize, len: usize, size: usize, replaced: usize)
        ensures { self.new ≡ with_text self.old start len size replaced }
    {
        self.words = self.words.saturating_add(1);
        self.bytes = self.bytes.saturating_add(size);
        self.replaced = replaced;
        if self.left == 0 {
            self.left = 18446744073709551615;
            self.start = start;
            self.len = len;
            return;
        }
        self.left -= 1;
    }
}
