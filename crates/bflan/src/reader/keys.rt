// Runs of keys and of values, each read whole by base's runs.
ghost use Rattle.std.specs.Prelude.{◌≡◌, List, ℕ, ◌<◌};
ghost use Rattle.bflan.specs.Reader.{numbers};
ghost use Rattle.bflan.specs.pai1.Curves.{curve_number};
ghost use Rattle.bflan.specs.pai1.Reading.{keys};
ghost use Rattle.bflan.specs.inner.Walk.{as_items, walk_of, walked};

use crate::curve::Curve;
use crate::reader::tally::{Tables, Walk};
use base::run::{read_numbers, read_pairs};

// The keys of a curve, `n` of them, from `p` on.
#[tactic(auto, using(crate::proofs::reader::KeyRuns::keys_constant, crate::proofs::reader::KeyRuns::keys_hermite))]
pub(crate) fn keys(s: &[u8], p: usize, curve: Curve, n: usize, into: &mut Tables<'_>) -> Walk
    requires { n < 65536 }
    ensures { walked result into.new ≡ walk_of s.now into.old (keys (curve_number curve) n s.now p) }
{
    match curve {
        Curve::Constant => values(s, p, n, into),
        Curve::Step => pairs(s, p, n, into),
        Curve::Hermite => values(s, p, 3 * n, into),
    }
}

// `n` numbers of four bytes from `p` on, a word each.
#[tactic(auto, using(crate::proofs::reader::KeyRuns::run_on, crate::proofs::reader::KeyRuns::run_no, crate::proofs::reader::KeyRuns::numbers_items, base::proofs::Runs::numbers_length))]
#[inline(always)]
pub(crate) fn values(s: &[u8], p: usize, n: usize, into: &mut Tables<'_>) -> Walk
    ensures { walked result into.new ≡ walk_of s.now into.old (as_items (numbers n s.now p)) }
{
    let next = read_numbers(s, p, n, into.words, into.tally.words)?;
    into.tally.add_words(n);
    Ok(next)
}

// `n` keys of a frame and a u16.
#[tactic(auto, using(crate::proofs::reader::KeyRuns::run_on, crate::proofs::reader::KeyRuns::run_no, crate::proofs::reader::KeyRuns::keys_step, base::proofs::Runs::length_pairs))]
fn pairs(s: &[u8], p: usize, n: usize, into: &mut Tables<'_>) -> Walk
    requires { n < 65536 }
    ensures { walked result into.new ≡ walk_of s.now into.old (keys 1 n s.now p) }
{
    let next = read_pairs(s, p, n, into.words, into.tally.words)?;
    into.tally.add_words(2 * n);
    Ok(next)
}
