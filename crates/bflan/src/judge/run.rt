// Runs of words: values, and the keys of a target. Where every word may be any u32, none of them is looked at.
ghost use Rattle.std.specs.Prelude.{◌≡◌, List, ℕ, ◌<◌, ◌≤◌, length};
ghost use Rattle.bflan.specs.Judge.{next_word, wide, row, times};
ghost use Rattle.bflan.specs.Layout.{number, size, parts};
ghost use Rattle.bflan.specs.pai1.Curves.{curve_number};
ghost use Rattle.bflan.specs.pai1.Layout.{key_lay};
ghost use Rattle.bflan.specs.inner.Measure.{verdict_of};
ghost use Rattle.bflan.specs.pai1.Record.{key_widths};

use crate::curve::Curve;
use crate::judge::word::word_below;
use crate::judge::{Mark, Misfit, Position};

// The next `n` words.
// Kept: no `Rest`, here and in `pairs` and `keys`. Tried, and the proof didn't close: of a slice in a struct none knows that its items are u32.
#[tactic(auto, using(crate::proofs::judge::JudgeParts::run_there, crate::proofs::judge::JudgeParts::run_short))]
pub(crate) fn run(words: &[u32], at: Position, n: usize) -> Result<Mark, Misfit>
    requires { n ≤ 17179869184 }
    ensures { (x : List ℕ) → result ≡ verdict_of (λ vs. size (parts (number 4) vs)) (times n (next_word (wide 4)) words.now x at.word at.byte) }
{
    if n <= words.len().saturating_sub(at.word) {
        return Ok(Mark {
            at: Position {
                word: at.word + n,
                ..at
            },
            size: 4 * n,
        });
    }
    if at.word < words.len() {
        return Err(Misfit::Word(words.len()));
    }
    Err(Misfit::Word(at.word))
}

// `n` keys of a frame and a u16.
fn pairs(words: &[u32], at: Position, n: usize) -> Result<Mark, Misfit>
    requires { n < 65536 }
    ensures { (x : List ℕ) → result ≡ verdict_of (λ ks. size (parts (key_lay 1) ks)) (times n (row (key_widths 1)) words.now x at.word at.byte) }
{
    // Kept: a loop of its own beside `times`, which adds up the bytes key by key. With it a key took 15 instructions in place of 11, and the writing
    // of 20,000 contents with Step keys 5 % more of them.
    let mut word = at.word;
    for _ in 0..n {
        word_below(words, word, 4294967296)?;
        word_below(words, word + 1, 65536)?;
        word += 2;
    }
    Ok(Mark {
        at: Position { word, ..at },
        size: 8 * n,
    })
}

// The next `n` keys of a curve.
pub(crate) fn keys(words: &[u32], at: Position, curve: Curve, n: usize) -> Result<Mark, Misfit>
    requires { n < 65536 }
    ensures { (x : List ℕ) → result ≡ verdict_of (λ ks. size (parts (key_lay (curve_number curve)) ks)) (times n (row (key_widths (curve_number curve))) words.now x at.word at.byte) }
{
    match curve {
        Curve::Constant => run(words, at, n),
        Curve::Step => pairs(words, at, n),
        Curve::Hermite => run(words, at, 3 * n),
    }
}
