// Single words, and tests of them: a word that is missing fits nothing.
ghost use Rattle.std.specs.Prelude.{◌≡◌, ◌+◌, ◌<◌, ℕ, Bool, ltb, get_or};
ghost use Rattle.bflan.specs.pai1.Letters.{letters_fit, target_fits};
ghost use Rattle.bflan.specs.inner.Measure.{numbered, word_if};

use crate::curve::Curve;
use crate::judge::{Misfit, Rest};
use crate::letters::{AnimInfoType, kind_of, target_fits};

// The word at `i`, or 0 past the end.
pub(crate) fn word_of(words: &[u32], i: usize) -> u32
    ensures { result ≡ get_or words.now i 0 }
{
    if i < words.len() {
        return words[i];
    }
    0
}

// The word at `i`, if it is there and `fits` holds of it.
fn word_where<F: Fn(u32) -> bool>(words: &[u32], i: usize, fits: F) -> Result<u32, Misfit>
    requires { F.IsAlwaysCallable fits }
    ensures { (test : ℕ → Bool) → ((v : ℕ) (b : Bool) → F.post fits v b → b ≡ test v) → result ≡ word_if test words.now i }
{
    match words.get(i) {
        Some(word) if fits(*word) => Ok(*word),
        _ => Err(Misfit::Word(i)),
    }
}

// The word at `i`, if it is there and below `bound`.
pub(crate) fn word_below(words: &[u32], i: usize, bound: usize) -> Result<u32, Misfit>
    ensures { result ≡ word_if (λ v. ltb v bound) words.now i }
{
    word_where(words, i, |word| (word as usize) < bound)
}

// Whether a record may have these letters.
fn listed(letters: u32) -> bool
    ensures { result ≡ letters_fit letters }
{
    match kind_of(letters) {
        AnimInfoType::Standard(_count) => true,
        AnimInfoType::ExtendedUserData => true,
        AnimInfoType::Invalid => letters == 0,
    }
}

impl Rest<'_> {
    // The word `k` on, if it is there and below `bound`.
    pub(crate) fn word_below(self, k: usize, bound: usize) -> Result<u32, Misfit>
        requires { self.at.word + k < 18446744073709551616 }
        ensures { result ≡ word_if (λ v. ltb v bound) self.entry.words.now (self.entry.at.word + k) }
    {
        word_below(self.words, self.at.word + k, bound)
    }

    // The next word, if it is there and letters that a record may have.
    pub(crate) fn letters_at(self) -> Result<u32, Misfit>
        ensures { result ≡ word_if letters_fit self.entry.words.now self.entry.at.word }
    {
        word_where(self.words, self.at.word, |word| listed(word))
    }

    // The next word, if it is there and a target that a record may have under these letters.
    pub(crate) fn target_at(self, letters: u32) -> Result<u32, Misfit>
        ensures { result ≡ word_if (target_fits letters) self.entry.words.now self.entry.at.word }
    {
        word_where(self.words, self.at.word, |word| target_fits(letters, word))
    }

    // The next word as a curve, if it is there and the number of one.
    #[tactic(auto, using(crate::proofs::judge::Measures::curve_in, crate::proofs::judge::Measures::curve_over, crate::proofs::judge::Measures::word_if_out))]
    pub(crate) fn curve_at(self) -> Result<Curve, Misfit>
        ensures { numbered result ≡ word_if (λ v. ltb v 3) self.entry.words.now self.entry.at.word }
    {
        if let Some(number) = self.words.get(self.at.word) {
            if let Ok(curve) = Curve::try_from(*number) {
                return Ok(curve);
            }
        }
        Err(Misfit::Word(self.at.word))
    }
}
