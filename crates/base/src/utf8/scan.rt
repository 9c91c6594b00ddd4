// ASCII, and the characters from a position on, up to the first ill-formed subpart.
ghost use Rattle.std.specs.Prelude.{◌==◌};
ghost use Rattle.std.specs.Prelude.{◌≡◌, ◌&&◌, ◌+◌, ◌%◌, ◌≤◌, ◌<◌, min, max, eqb, length, take, drop};
ghost use Rattle.base.specs.Text.{every, ascii, plain, is_plain};
ghost use Rattle.base.specs.Utf8.{valid_up_to};
ghost use Rattle.base.specs.inner.Scan.{ill_size, ascii_seen};
ghost use Rattle.base.specs.inner.Flow.{Flow};

use crate::byte_test::{Ascii, Plain, every_in};
use crate::utf8::flow::Automaton;

// The end of the characters, and the number of bytes of the ill-formed subpart there; 0 at the text's end.
// Kept: `skip` is a number and no Option. A subpart has one byte at least, so 0 is free, and the callers add `skip` up.
#[derive(Clone, Copy)]
pub struct Run {
    pub end: usize,
    pub skip: usize,
}

// Whether a whole text of 32 to 64 bytes is ASCII, by its first 32 and its last.
fn ascii_two(s: &[u8]) -> bool
    requires { (32 ≤ length s.now) × (length s.now ≤ 64) }
    ensures { result ≡ every ascii s.now }
{
    if every_in::<Ascii>(s, 0, 32) {
        return every_in::<Ascii>(s, s.len() - 32, 32);
    }
    false
}

// Whether a whole text of 64 bytes or more is ASCII, by blocks of which the last may overlap the one before it. The compiler folds a block into one
// byte before it tests it, so longer blocks have less of that.
fn ascii_long(s: &[u8]) -> bool
    requires { 64 ≤ length s.now }
    ensures { result ≡ every ascii s.now }
{
    let n = s.len();
    let mut i = 0;
    // Kept: `chunks_exact` is no plainer. The last block overlaps the one before it, so it would be a slice of its own with a test of its own.
    while 64 <= n - i {
        if every_in::<Ascii>(s, i, 64) {
            i += 64;
        } else {
            return false;
        }
    }
    every_in::<Ascii>(s, n - 64, 64)
}

// Whether a whole text of 8 to 32 bytes is ASCII and without a zero. It is four blocks whatever the length, so that the processor has no length
// to foresee.
#[tactic(auto, using(crate::proofs::Tests::every_four))]
fn plain_four(s: &[u8]) -> bool
    requires { (8 ≤ length s.now) × (length s.now ≤ 32) }
    ensures { result ≡ every plain s.now }
{
    let last = s.len() - 8;
    let next = last.min(8);
    let a = every_in::<Plain>(s, 0, 8);
    let b = every_in::<Plain>(s, next, 8);
    let c = every_in::<Plain>(s, last - next, 8);
    let d = every_in::<Plain>(s, last, 8);
    a & b & c & d
}

// Whether a text is seen to be ASCII. A no is also said of a text of 8 to 32 bytes that is ASCII and has a zero, and the caller then takes the way
// that is right for every text.
// It looks at a part, which is all of the text: the text's address is then read at once whatever its length, and so the compiler passes address and
// length in registers. Without that a caller stores both, and they are read back.
#[tactic(auto, using(crate::proofs::Parts::part_all), unfolding(crate::specs::inner::Scan::ascii_seen))]
pub(crate) fn is_ascii(s: &[u8]) -> bool
    ensures { result ≡ ascii_seen s.now }
{
    let n = s.len();
    let t = &s[0..n];
    if n < 8 {
        return every_in::<Ascii>(t, 0, n);
    }
    if n < 33 {
        return plain_four(t);
    }
    if n < 64 {
        return ascii_two(t);
    }
    ascii_long(t)
}

// Whether a text has 8 to 32 bytes and is ASCII without a zero. It asks `is_ascii`, so that this stays one function.
#[tactic(auto, unfolding(crate::specs::Text::is_plain, crate::specs::inner::Scan::ascii_seen))]
pub(crate) fn is_plain(s: &[u8]) -> bool
    ensures { result ≡ is_plain s.now }
{
    let n = s.len();
    if n < 8 {
        return false;
    }
    if 32 < n {
        return false;
    }
    is_ascii(s)
}

// Whether the 32 bytes from `at` on can be passed as they are: between two characters, where they are ASCII.
fn plain_block(s: &[u8], at: usize, state: u64) -> bool
    requires { at + 32 ≤ length s.now }
    ensures { result ≡ ((state % 64) == 0 && every ascii (take 32 (drop at s.now))) }
{
    if state % 64 == 0 {
        every_in::<Ascii>(s, at, 32)
    } else {
        false
    }
}

// The end of the text where the automaton comes to it between two characters, or `good`. Which of the two is left open: from either it is as far
// to the first ill-formed subpart.
#[tactic(auto, using(crate::proofs::utf8::Automaton::flow_join, crate::proofs::utf8::Automaton::flow_end, crate::proofs::utf8::Automaton::state_zero))]
fn last_block(s: &[u8], good: usize, at: usize, state: u64, automaton: Automaton) -> usize
    requires { Flow s.now good 0 at state }
    ensures { (good ≤ result) × (result ≤ length s.now) × (result + valid_up_to (drop result s.now) ≡ good + valid_up_to (drop good s.now)) }
{
    let n = s.len();
    let q = automaton.flow_over(s, at, n, state);
    if q % 64 == 0 {
        return n;
    }
    good
}

// Whole characters, 32 bytes at a time, as far as that goes. `good` is the last end of a block that stands between two characters. How far it goes
// is left open: the caller walks on from there, byte by byte.
#[tactic(auto, using(crate::proofs::utf8::Automaton::flow_start, crate::proofs::utf8::Automaton::zero_state, crate::proofs::utf8::Automaton::flow_join, crate::proofs::utf8::Automaton::flow_end, crate::proofs::utf8::Automaton::flow_here, crate::proofs::utf8::Automaton::state_zero))]
fn blocks(s: &[u8], from: usize, automaton: Automaton) -> usize
    requires { (from ≤ length s.now) }
    ensures { (from ≤ result) × (result ≤ length s.now) × (result + valid_up_to (drop result s.now) ≡ from + valid_up_to (drop from s.now)) }
{
    let mut good = from;
    let mut j = from;
    let mut q: u64 = 0;
    // Kept: `chunks_exact` is no plainer, since where the walk stops, and in which state, is used behind the loop.
    while 32 <= s.len() - j {
        if plain_block(s, j, q) {
            j += 32;
            good = j;
        } else {
            let next = j + 32;
            q = automaton.flow_over(s, j, next, q);
            j = next;
            if q % 64 == 6 {
                return good;
            }
            if q % 64 == 0 {
                good = j;
            }
        }
    }
    last_block(s, good, j, q, automaton)
}

// Byte by byte, until `stop` is reached or an ill-formed subpart is met. `i` is where the character starts that `j` stands in. How
// near to `stop` it comes is left open: a character that `stop` cuts is left to the next run.
// Kept: `for j in from..stop` was tried, and ill-formed texts take 8 to 10 % longer.
fn walk(s: &[u8], from: usize, stop: usize, automaton: Automaton) -> Run
    requires { (from ≤ stop) × (stop ≤ length s.now) }
    ensures { (from ≤ result.end) × (result.end ≤ length s.now)
        × (result.end + valid_up_to (drop result.end s.now) ≡ from + valid_up_to (drop from s.now))
        × (result.skip ≡ 0 → stop ≡ length s.now → stop ≤ result.end)
        × (0 < result.skip → (result.skip ≡ ill_size (drop result.end s.now)) × (valid_up_to (drop result.end s.now) ≡ 0)) }
{
    let mut i = from;
    let mut j = from;
    let mut q: u64 = 0;
    while j < stop {
        q = automaton.next_state(q, s[j]);
        if q % 64 == 6 {
            return Run {
                end: i,
                skip: (j - i).max(1),
            };
        }
        j += 1;
        if q % 64 == 0 {
            i = j;
        }
    }
    if j == s.len() {
        return Run {
            end: i,
            skip: j - i,
        };
    }
    Run { end: i, skip: 0 }
}

// The rest of a text, by blocks; what is left of them byte by byte. It goes on with a part that is all of the text, for the reason that `is_ascii` does.
fn far_run(s: &[u8], from: usize, automaton: Automaton) -> Run
    requires { (from ≤ length s.now) }
    ensures { (result.end ≡ from + valid_up_to (drop from s.now)) × (result.skip ≡ ill_size (drop result.end s.now)) }
{
    let n = s.len();
    let t = &s[0..n];
    let e = blocks(t, from, automaton);
    walk(t, e, n, automaton)
}

// Behind an ill-formed subpart a few bytes one by one first: where there are many of them, the blocks would be tried in vain.
pub(crate) fn next_run(s: &[u8], from: usize, automaton: Automaton) -> Run
    requires { (from ≤ length s.now) }
    ensures { (result.end ≡ from + valid_up_to (drop from s.now)) × (result.skip ≡ ill_size (drop result.end s.now)) }
{
    if from == 0 {
        return far_run(s, from, automaton);
    }
    let stop = from + (s.len() - from).min(8);
    let run = walk(s, from, stop, automaton);
    let end = run.end;
    if run.skip != 0 {
        return run;
    }
    far_run(s, end, automaton)
}
