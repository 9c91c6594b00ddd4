// Runs of numbers: tested once, then read in a plain loop into a slice of words, or written from one. What would stand past the end of the slice
// that is stored into is dropped.
ghost use Rattle.std.specs.Prelude.{slice_set};
ghost use Rattle.std.specs.Prelude.{◌≡◌, [], ◌∷◌, ◌+◌, ◌-◌, ◌*◌, ◌/◌, ◌≤◌, length, take, drop};
ghost use Rattle.std.proofs.lemmas.List.Edits.{sets};
ghost use Rattle.base.specs.Run.{numbers_at, numbers_of, pairs_at, pairs_of, cut_pair, stored_run, numbers_le, pairs_le};

use crate::error::PastEnd;
use crate::fill::room;
use crate::number::{Stored, write};

// One word at `at`.
pub fn put_word(out: &mut [u32], at: usize, v: u32)
    ensures { out.new ≡ slice_set out.old at v }
{
    if at < out.len() {
        out[at] = v;
    }
}

// How many numbers of four bytes from `at` on are whole.
fn whole_numbers(s: &[u8], at: usize) -> usize
    ensures { result ≡ (length s.now - at) / 4 }
{
    s.len().saturating_sub(at) / 4
}

// The answer of a run of `n` numbers of four bytes, which are not read.
#[tactic(auto, using(crate::proofs::Runs::numbers_cut, crate::proofs::Runs::numbers_there))]
pub fn numbers_end(s: &[u8], at: usize, n: usize) -> Result<usize, PastEnd>
    ensures { result ≡ numbers_of n s.now at }
{
    let whole = whole_numbers(s, at);
    if whole < n {
        return Err(PastEnd {
            offset: at + 4 * whole,
            requested: 4,
        });
    }
    Ok(at + 4 * n)
}

// `n` numbers of four bytes from `at` on, stored from `o` on.
// Kept: the test of `numbers_end` again. With a call of it and `?` extended data took 4 % more instructions to read.
pub fn read_numbers(
    s: &[u8],
    at: usize,
    n: usize,
    out: &mut [u32],
    o: usize,
) -> Result<usize, PastEnd>
    ensures { (result ≡ numbers_of n s.now at) × (out.new ≡ stored_run result out.old o (numbers_at n s.now at)) }
{
    let whole = whole_numbers(s, at);
    if whole < n {
        return Err(PastEnd {
            offset: at + 4 * whole,
            requested: 4,
        });
    }
    let m = room(n, o, out.len());
    for k in 0..m {
        out[o + k] = u32::get(s, at + 4 * k);
    }
    Ok(at + 4 * n)
}

// `n` pairs of a number of four bytes and one of two, each pair in eight bytes, stored from `o` on.
pub fn read_pairs(
    s: &[u8],
    at: usize,
    n: usize,
    out: &mut [u32],
    o: usize,
) -> Result<usize, PastEnd>
    ensures { (result ≡ pairs_of n s.now at) × (out.new ≡ stored_run result out.old o (pairs_at n s.now at)) }
{
    let left = s.len().saturating_sub(at);
    let whole = (left + 2) / 8;
    if whole < n {
        return cut_pair(s, at + 8 * whole);
    }
    let m = room(2 * n, o, out.len());
    let full = m / 2;
    for k in 0..full {
        out[o + 2 * k] = u32::get(s, at + 8 * k);
        out[o + 2 * k + 1] = u16::get(s, at + 8 * k + 4);
    }
    // The first number of the next pair may have room. The answer is the same either way; each way has its own `return`, since they leave different
    // lists and are proved apart.
    if full < n {
        put_word(out, o + 2 * full, u32::get(s, at + 8 * full));
        return Ok(at + 8 * n);
    }
    Ok(at + 8 * n)
}

// The answer where the pair at `at` is not whole.
#[tactic(auto, unfolding(crate::specs::Run::cut_pair))]
fn cut_pair(s: &[u8], at: usize) -> Result<usize, PastEnd>
    ensures { result ≡ cut_pair s.now at }
{
    if s.len().saturating_sub(at) < 4 {
        return Err(PastEnd {
            offset: at,
            requested: 4,
        });
    }
    Err(PastEnd {
        offset: at + 4,
        requested: 2,
    })
}

// The `n` words from `from` on as numbers of four bytes, stored from `at` on. Those that have room go by a loop that tests nothing, so that it
// becomes wide moves; of the next one the first bytes may have room.
pub fn write_numbers(words: &[u32], from: usize, n: usize, out: &mut [u8], at: usize)
    ensures { out.new ≡ sets out.old at (numbers_le (take n (drop from words.now))) }
{
    let m = room(n, from, words.len());
    let full = room(m, 0, out.len().saturating_sub(at) / 4);
    for k in 0..full {
        u32::put(out, at + 4 * k, words[from + k]);
    }
    if full < m {
        write::<u32>(out, at + 4 * full, words[from + full]);
    }
}

// A pair at a place that has room for it. Its second number and the two zeros go as one number of four bytes: a loop over two equal
// stores becomes wide moves, one over three unequal ones does not.
#[tactic(auto, using(crate::proofs::Runs::pair_le))]
fn store_pair(out: &mut [u8], at: usize, a: u32, b: u32)
    requires { at + 8 ≤ length out.old }
    ensures { out.new ≡ sets out.old at (pairs_le (a ∷ b ∷ [])) }
{
    u32::put(out, at, a);
    u32::put(out, at + 4, b % 65536);
}

// A pair, as much of it as has room.
#[tactic(auto, using(crate::proofs::Runs::pair_le, crate::proofs::Stores::sets_out))]
fn clip_pair(out: &mut [u8], at: usize, a: u32, b: u32)
    ensures { out.new ≡ sets out.old at (pairs_le (a ∷ b ∷ [])) }
{
    if at < out.len() {
        write::<u32>(out, at, a);
        write::<u32>(out, at + 4, b % 65536);
    }
}

// The `n` pairs of words from `from` on, each a number of four bytes and one of two in eight bytes, stored from `at` on as the numbers are.
pub fn write_pairs(words: &[u32], from: usize, n: usize, out: &mut [u8], at: usize)
    ensures { out.new ≡ sets out.old at (pairs_le (take (2 * n) (drop from words.now))) }
{
    let m = room(n, 0, words.len().saturating_sub(from) / 2);
    let full = room(m, 0, out.len().saturating_sub(at) / 8);
    for k in 0..full {
        store_pair(
            out,
            at + 8 * k,
            words[from + 2 * k],
            words[from + 2 * k + 1],
        );
    }
    if full < m {
        clip_pair(
            out,
            at + 8 * full,
            words[from + 2 * full],
            words[from + 2 * full + 1],
        );
    }
}
