// Texts among bytes: where the first zero or the first fault stands, a field of fixed length, a text that ends at a zero.
ghost use Rattle.std.specs.Prelude.{◌≡◌, ◌+◌, ◌*◌, ◌≤◌, ◌<◌, length, take, drop};
ghost use Rattle.base.specs.Choice.{pick};
ghost use Rattle.base.specs.Text.{before_zero, zero_free, first_fault, fixed_of, ended_of, plain_at};

use crate::byte_test::{NotZero, every_in};
use crate::error::{PastEnd, TextError};
use crate::utf8::first_ill;
use crate::utf8::scan::is_plain;

// A place that no zero stands before: behind the blocks of `size` bytes from `from` on that have none. Fewer than `size` bytes on, a zero or the
// end stands; which place it is is left open, since `first_zero` finds the same zero from each.
#[tactic(auto, using(crate::proofs::Zeros::before_within, crate::proofs::Zeros::block_free, crate::proofs::Zeros::block_zero))]
fn clear_blocks(text: &[u8], from: usize, size: usize) -> usize
    requires { (0 < size) × (from ≤ before_zero text.now) }
    ensures { (from ≤ result) × (result ≤ before_zero text.now) × (result + size ≤ length text.now → before_zero text.now < result + size) }
{
    let mut at: usize = from;
    // Kept: `from + size * chunks_exact(size).take_while(..).count()` is no plainer: it needs a slice, a product and a sum to say the same place.
    while size <= text.len() - at && every_in::<NotZero>(text, at, size) {
        at += size;
    }
    at
}

// Which half of the `2 * n` bytes from `at` on has the first zero: where it starts. Nothing branches on the answer: where a name ends is nothing
// that a processor could foresee. (Where the zero is in that half is left open: `zero_in` halves until one byte is left.)
#[tactic(auto, using(crate::proofs::Zeros::block_free, crate::proofs::Zeros::block_zero))]
fn half(text: &[u8], at: usize, n: usize) -> usize
    requires { (at + 2 * n ≤ length text.now) × (at ≤ before_zero text.now) × (before_zero text.now < at + 2 * n) }
    ensures { (result ≤ before_zero text.now) × (before_zero text.now < result + n) × (result + n ≤ length text.now) }
{
    if every_in::<NotZero>(text, at, n) {
        at + n
    } else {
        at
    }
}

// The first zero, where it is among the 8 bytes from `at` on.
fn zero_in(text: &[u8], at: usize) -> usize
    requires { (at ≤ before_zero text.now) × (before_zero text.now < at + 8) × (at + 8 ≤ length text.now) }
    ensures { result ≡ before_zero text.now }
{
    let a = half(text, at, 4);
    let b = half(text, a, 2);
    half(text, b, 1)
}

// Kept: `8 * usize::from(test)` is no plainer than `if`. (It was tried, and the search took up to 3 % longer.)
fn eight_if(test: bool) -> usize
    ensures { (result ≡ pick test 8 0) × (result ≤ 8) }
{
    if test { 8 } else { 0 }
}

// Where the 8 of the 32 bytes from `at` on start that have the first zero. The blocks are tested side by side and those before it added up,
// again with no branch. (Where the zero is in them is left open: `zero_in` finds it.)
fn zero_block(text: &[u8], at: usize) -> usize
    requires { (at + 32 ≤ length text.now) × (at ≤ before_zero text.now) × (before_zero text.now < at + 32) }
    ensures { (result ≤ before_zero text.now) × (before_zero text.now < result + 8) × (result + 8 ≤ length text.now) }
{
    let a = every_in::<NotZero>(text, at, 8);
    let b = every_in::<NotZero>(text, at + 8, 8);
    let c = every_in::<NotZero>(text, at + 16, 8);
    at + eight_if(a) + eight_if(a & b) + eight_if(a & b & c)
}

// The first zero at or after `at`, or the text's length.
#[tactic(auto, using(crate::proofs::Zeros::zero_here, crate::proofs::Zeros::zero_later, crate::proofs::Zeros::zero_none))]
fn zero_from(text: &[u8], at: usize) -> usize
    requires { at ≤ length text.now }
    ensures { result ≡ at + before_zero (drop at text.now) }
{
    for i in at..text.len() {
        if text[i] == 0 {
            return i;
        }
    }
    text.len()
}

// The same where fewer than 8 bytes are left, and no zero stands before them: the last 8 bytes are tested together.
#[tactic(auto, using(crate::proofs::Zeros::before_within, crate::proofs::Zeros::before_skip))]
fn zero_behind(text: &[u8], at: usize) -> usize
    requires { (at ≤ before_zero text.now) × (length text.now < at + 8) }
    ensures { result ≡ before_zero text.now }
{
    let n = text.len();
    if n < 8 {
        return zero_from(text, at);
    }
    if every_in::<NotZero>(text, n - 8, 8) {
        return n;
    }
    zero_from(text, at)
}

// How many bytes stand before the first zero; all, where there is none.
#[tactic(auto, using(crate::proofs::Zeros::before_within))]
pub fn first_zero(text: &[u8]) -> usize
    ensures { result ≡ before_zero text.now }
{
    let far = clear_blocks(text, 0, 32);
    if 32 <= text.len() - far {
        return zero_in(text, zero_block(text, far));
    }
    let near = clear_blocks(text, far, 8);
    if 8 <= text.len() - near {
        return zero_in(text, near);
    }
    zero_behind(text, near)
}

// Where the first zero or the first ill-formed subpart stands, whichever is earlier; the length, where there is neither.
#[tactic(auto, using(crate::proofs::utf8::Turns::plain_fault), unfolding(crate::specs::Text::first_fault))]
pub fn first_fault(text: &[u8]) -> usize
    ensures { result ≡ first_fault text.now }
{
    if is_plain(text) {
        return text.len();
    }
    let zero = first_zero(text);
    let ill = first_ill(text);
    zero.min(ill)
}

// A field of `n` bytes, read up to its first zero, and cut where the slice ends.
pub fn fixed_text(s: &[u8], at: usize, n: usize) -> Result<(usize, usize), TextError>
    ensures { result ≡ fixed_of n s.now at }
{
    if s.len() < at {
        return Err(TextError::PastEnd(PastEnd {
            offset: at,
            requested: n,
        }));
    }
    let left = s.len() - at;
    if n <= left {
        let end = at + n;
        return Ok((first_zero(&s[at..end]), end));
    }
    if left == 0 {
        return Err(TextError::PastEnd(PastEnd {
            offset: at,
            requested: n,
        }));
    }
    Ok((first_zero(&s[at..]), s.len()))
}

// A text that ends at a zero.
pub fn ended_text(s: &[u8], at: usize) -> Result<(usize, usize), TextError>
    ensures { result ≡ ended_of s.now at }
{
    if s.len() <= at {
        return Err(TextError::NoZero(at));
    }
    let n = first_zero(&s[at..]);
    let zero = at + n;
    if zero < s.len() {
        Ok((n, zero + 1))
    } else {
        Err(TextError::NoZero(at))
    }
}

// Whether a text of `n` bytes stands at `at` with a zero behind it, and is plain: 8 to 32 bytes of ASCII without a zero. Where a text's length is
// foreseen this is one test in place of a search for its zero, and the text needs no further one.
#[tactic(auto, unfolding(crate::specs::Text::plain_at))]
pub fn plain_text(s: &[u8], at: usize, n: usize) -> bool
    ensures { result ≡ plain_at s.now at n }
{
    let size = s.len();
    if size <= at {
        return false;
    }
    if size - at <= n {
        return false;
    }
    let zero = at + n;
    if s[zero] != 0 {
        return false;
    }
    is_plain(&s[at..zero])
}
