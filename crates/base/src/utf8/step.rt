// One piece of a text: a character, or a maximal ill-formed subpart.
ghost use Rattle.std.specs.Prelude.{◌==◌, slice_index};
ghost use Rattle.std.specs.Prelude.{◌≡◌, [], ◌∷◌, suc, ◌+◌, ◌<◌, ◌≤◌, eqb, length, get_or, drop};
ghost use Rattle.base.specs.Choice.{pick};
ghost use Rattle.base.specs.Utf8.{range, tail, within, matched, step_of};

use crate::utf8::class::ClassTable;

// A piece, by its number of bytes.
// Kept: a `Result` is no plainer. An ill-formed piece is no failure: no `?` hands it up, and the text goes on behind it as behind a character.
#[derive(Clone, Copy)]
pub enum Step {
    Good(usize),
    Bad(usize),
}

#[tactic(auto, unfolding(crate::specs::Utf8::within))]
fn inside(b: u8, lo: u8, hi: u8) -> bool
    ensures { result ≡ within (range lo hi) b }
{
    lo <= b && b <= hi
}

// How many bytes from `at` on are, one by one, in their ranges: one, two or three ranges, of which the later ones are 80..BF.
// Kept: one function over the number of the ranges was tried, and `decode_plain` took 10 to 25 % longer.
#[tactic(auto, using(crate::proofs::utf8::Steps::matched_hit, crate::proofs::utf8::Steps::matched_miss, crate::proofs::utf8::Steps::matched_past, crate::proofs::utf8::Steps::matched_none))]
fn match1(s: &[u8], at: usize, lo: u8, hi: u8) -> usize
    ensures { (result ≡ matched (range lo hi ∷ []) (drop at s.now)) × (result ≤ 1) }
{
    if at < s.len() {
        if inside(s[at], lo, hi) { 1 } else { 0 }
    } else {
        0
    }
}

#[tactic(auto, using(crate::proofs::utf8::Steps::matched_hit, crate::proofs::utf8::Steps::matched_miss, crate::proofs::utf8::Steps::matched_past))]
fn match2(s: &[u8], at: usize, lo: u8, hi: u8) -> usize
    ensures { (result ≡ matched (range lo hi ∷ tail ∷ []) (drop at s.now)) × (result ≤ 2) }
{
    if at < s.len() {
        if inside(s[at], lo, hi) {
            1 + match1(s, at + 1, 0x80, 0xBF)
        } else {
            0
        }
    } else {
        0
    }
}

#[tactic(auto, using(crate::proofs::utf8::Steps::matched_hit, crate::proofs::utf8::Steps::matched_miss, crate::proofs::utf8::Steps::matched_past))]
fn match3(s: &[u8], at: usize, lo: u8, hi: u8) -> usize
    ensures { (result ≡ matched (range lo hi ∷ tail ∷ tail ∷ []) (drop at s.now)) × (result ≤ 3) }
{
    if at < s.len() {
        if inside(s[at], lo, hi) {
            1 + match2(s, at + 1, 0x80, 0xBF)
        } else {
            0
        }
    } else {
        0
    }
}

// The piece of a class that has `of` later bytes, of which `n` are there.
fn judged(n: usize, of: usize) -> Step
    requires { n < 4 }
    ensures { result ≡ pick (n == of) (Step.Good (suc n)) (Step.Bad (suc n)) }
{
    if n == of {
        Step::Good(n + 1)
    } else {
        Step::Bad(n + 1)
    }
}

// The piece that begins at `at`.
#[tactic(auto, using(crate::proofs::utf8::Steps::step_one, crate::proofs::utf8::Steps::ascii_class, crate::proofs::utf8::Steps::class_row, crate::proofs::utf8::Steps::step_none, crate::proofs::utf8::Steps::class_none))]
pub(crate) fn step_at(s: &[u8], at: usize, classes: ClassTable) -> Step
    requires { at < length s.now }
    ensures { result ≡ step_of (slice_index s.now at) (drop (at + 1) s.now) }
{
    let b = s[at];
    if b < 128 {
        return Step::Good(1);
    }
    let c = classes.class(b);
    let next = at + 1;
    match c {
        1 => Step::Good(1),
        2 => judged(match1(s, next, 0x80, 0xBF), 1),
        3 => judged(match2(s, next, 0xA0, 0xBF), 2),
        4 | 6 => judged(match2(s, next, 0x80, 0xBF), 2),
        5 => judged(match2(s, next, 0x80, 0x9F), 2),
        7 => judged(match3(s, next, 0x90, 0xBF), 3),
        8 => judged(match3(s, next, 0x80, 0xBF), 3),
        9 => judged(match3(s, next, 0x80, 0x8F), 3),
        _ => Step::Bad(1),
    }
}
