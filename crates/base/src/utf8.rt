// UTF-8 by the Unicode Standard's Table 3-7: decoding with one U+FFFD for each maximal ill-formed subpart, and what is asked of a text.
ghost use Rattle.std.specs.Prelude.{◌==◌, nat_lt, slice_index};
ghost use Rattle.std.specs.Prelude.{◌≡◌, true, ◌&&◌, ◌+◌, ◌-◌, ◌≤◌, min, ltb, eqb, length, get_or, drop};
ghost use Rattle.std.proofs.lemmas.List.Edits.{sets};
ghost use Rattle.base.specs.Choice.{pick};
ghost use Rattle.base.specs.Utf8.{class_of, replacement, decode, decoded_size, valid_up_to, replacements, well_formed};
ghost use Rattle.base.specs.inner.Scan.{added, Lones};

use crate::fill::{copy, copy_few, copy_on};
use crate::utf8::class::{CLASSES, ClassTable};
use crate::utf8::flow::{Automaton, ROWS};
use crate::utf8::scan::{is_ascii, next_run};
use crate::utf8::step::{Step, step_at};

mod class;
mod flow;
pub(crate) mod scan;
pub mod step;

fn put_clipped(out: &mut [u8], at: usize) -> usize
    ensures { (out.new ≡ sets out.old at replacement) × (result ≡ at + min 3 (length out.old - at)) }
{
    let bytes = [0xEFu8, 0xBF, 0xBD];
    copy_on(&bytes, out, at)
}

// U+FFFD, and the place behind what was stored of it. Where there is room for all of it, it is three stores.
fn put_replacement(out: &mut [u8], at: usize) -> usize
    ensures { (out.new ≡ sets out.old at replacement) × (result ≡ at + min 3 (length out.old - at)) }
{
    if out.len().saturating_sub(at) < 3 {
        return put_clipped(out, at);
    }
    out[at] = 0xEF;
    out[at + 1] = 0xBF;
    out[at + 2] = 0xBD;
    at + 3
}

// Whether a short text is well-formed, by one way through the automaton. A no is left open: the caller then goes through the text as if nothing
// had been asked.
#[tactic(auto, using(crate::proofs::utf8::Automaton::zero_state))]
fn short_valid(text: &[u8], automaton: Automaton) -> bool
    ensures { result ≡ true → valid_up_to text.now ≡ length text.now }
{
    let n = text.len();
    if 64 < n {
        return false;
    }
    automaton.flow_over(text, 0, n, 0) % 64 == 0
}

// Where the first ill-formed subpart starts, or the length. A short text is looked at as a whole first: names are well-formed. It is asked of a text
// of which `is_ascii` says no, and is no part of what asks: an ASCII text then has nothing to do with the room for the tables.
#[tactic(auto, using(crate::proofs::utf8::Tables::classes_hold, crate::proofs::utf8::Tables::rows_hold))]
#[inline(never)]
fn ill_mixed(text: &[u8]) -> usize
    ensures { result ≡ valid_up_to text.now }
{
    let classes = CLASSES;
    let rows = ROWS;
    let automaton = Automaton::new(&classes, &rows);
    if short_valid(text, automaton) {
        return text.len();
    }
    next_run(text, 0, automaton).end
}

// Where the first ill-formed subpart starts, or the length. A text that is seen to be ASCII has none.
#[tactic(auto, using(crate::proofs::utf8::Turns::ascii_valid, crate::proofs::utf8::Turns::seen_ascii))]
pub fn first_ill(text: &[u8]) -> usize
    ensures { result ≡ valid_up_to text.now }
{
    if is_ascii(text) {
        return text.len();
    }
    ill_mixed(text)
}

#[tactic(auto, using(crate::proofs::utf8::Laws::well_valid))]
pub fn well_formed(text: &[u8]) -> bool
    ensures { result ≡ well_formed text.now }
{
    first_ill(text) == text.len()
}

// A byte that begins nothing is an ill-formed subpart by itself.
#[tactic(auto, using(crate::proofs::utf8::Steps::class_row, crate::proofs::utf8::Steps::class_tail))]
fn lone(text: &[u8], at: usize, classes: ClassTable) -> bool
    ensures { result ≡ (nat_lt at (length text.now) && class_of (slice_index text.now at) == 0) }
{
    if at < text.len() {
        let c = classes.class(text[at]);
        return c == 0 || 9 < c;
    }
    false
}

// Where lone bytes end, and the place behind what was stored for them.
#[derive(Clone, Copy)]
struct LoneEnd {
    end: usize,
    next: usize,
}

// Lone bytes from `i` on: a U+FFFD for each, from `o` on. Nothing is counted on the way: there are as many as bytes.
fn put_lone(text: &[u8], i: usize, out: &mut [u8], o: usize, classes: ClassTable) -> LoneEnd
    requires { i ≤ length text.now }
    ensures { Lones text.now i result.end
        × (sets out.new result.next (decode (drop result.end text.now)) ≡ sets out.old o (decode (drop i text.now))) }
{
    let mut end = i;
    let mut next = o;
    // Kept: each turn stores too, so that a `take_while(..).count()` is not enough; and a `for` has to carry both places as well.
    while lone(text, end, classes) {
        next = put_replacement(out, next);
        end += 1;
    }
    LoneEnd { end, next }
}

// The decoding by runs of characters, each up to an ill-formed subpart. Where these come one after another they are not looked for. The U+FFFD put
// in are added to `replaced`. The decoding is longer than the text by 2 for each of them, less 1 for each byte that a subpart has beyond one: `extra`.
fn decode_runs(
    text: &[u8],
    out: &mut [u8],
    at: usize,
    automaton: Automaton,
    replaced: &mut usize,
) -> usize
    ensures { (result ≡ decoded_size text.now) × (replaced.new ≡ added replaced.old (replacements text.now))
        × (out.new ≡ sets out.old at (decode text.now)) }
{
    let mut i = 0;
    let mut o = at;
    let mut extra: usize = 0;
    let mut count: usize = 0;
    // Kept: each turn goes on by as many bytes as it took, so no `for` has its steps.
    loop {
        let lones = put_lone(text, i, out, o, automaton.classes);
        let from = lones.end;
        count += from - i;
        let run = next_run(text, from, automaton);
        let end = run.end;
        let skip = run.skip;
        let next = copy_on(&text[from..end], out, lones.next);
        if skip == 0 {
            *replaced = replaced.saturating_add(count);
            return text.len().saturating_add(2 * count - extra);
        }
        o = put_replacement(out, next);
        extra += skip - 1;
        count += 1;
        i = end + skip;
    }
}

// A short text as a whole first here too. It goes on with a part that is all of the text, for the reason that `is_ascii` does.
#[tactic(auto, using(crate::proofs::utf8::Tables::classes_hold, crate::proofs::utf8::Tables::rows_hold))]
fn decode_mixed(text: &[u8], out: &mut [u8], at: usize, replaced: &mut usize) -> usize
    ensures { (result ≡ decoded_size text.now) × (replaced.new ≡ added replaced.old (replacements text.now))
        × (out.new ≡ sets out.old at (decode text.now)) }
{
    let n = text.len();
    let t = &text[0..n];
    let classes = CLASSES;
    let rows = ROWS;
    let automaton = Automaton::new(&classes, &rows);
    if short_valid(t, automaton) {
        copy(t, out, at);
        return n;
    }
    decode_runs(t, out, at, automaton, replaced)
}

// How many bytes the text decodes to: it is decoded into nothing.
#[tactic(auto, using(crate::proofs::utf8::Turns::ascii_size, crate::proofs::utf8::Turns::seen_ascii))]
pub fn decoded_len(text: &[u8]) -> usize
    ensures { result ≡ decoded_size text.now }
{
    if is_ascii(text) {
        return text.len();
    }
    let mut none = [0u8; 1];
    let mut replaced: usize = 0;
    decode_mixed(text, &mut none, 1, &mut replaced)
}

// The text is decoded and stored from `at` on; what would stand past the end is dropped. How many bytes it decodes to, and in `replaced` how many
// U+FFFD that puts in: of the whole decoding, also where `out` is too short.
pub fn decode_into(text: &[u8], out: &mut [u8], at: usize, replaced: &mut usize) -> usize
    ensures { (result ≡ decoded_size text.now) × (replaced.new ≡ replacements text.now)
        × (out.new ≡ sets out.old at (decode text.now)) }
{
    *replaced = 0;
    if is_ascii(text) {
        copy(text, out, at);
        return text.len();
    }
    decode_mixed(text, out, at, replaced)
}

// The same where the text may be known to be shown as it is: then it is stored as it is. `replaced` is the sum of `before` and the U+FFFD put in.
// It is in the loop over a section's texts. For one that is ASCII `before` is handed back, so that the compiler can keep the sum in a register.
// Kept: `plain` is a parameter that says one thing of the text, with no value beside it. An enum of two names says no more.
pub fn decode_known(
    text: &[u8],
    plain: bool,
    out: &mut [u8],
    at: usize,
    before: usize,
    replaced: &mut usize,
) -> usize
    ensures { (result ≡ pick plain (length text.now) (decoded_size text.now))
        × (replaced.new ≡ min (before + pick plain 0 (replacements text.now)) 18446744073709551615)
        × (out.new ≡ sets out.old at (pick plain text.now (decode text.now))) }
{
    if !plain {
        if !is_ascii(text) {
            let mut sum = before;
            let n = decode_mixed(text, out, at, &mut sum);
            *replaced = sum;
            return n;
        }
    }
    copy(text, out, at);
    *replaced = before;
    text.len()
}

// The same, one character at a time: the plain form that the other one is measured against.
#[tactic(auto, using(crate::proofs::utf8::Tables::classes_hold))]
pub fn decode_plain(text: &[u8], out: &mut [u8], at: usize, replaced: &mut usize) -> usize
    ensures { (result ≡ decoded_size text.now) × (replaced.new ≡ replacements text.now)
        × (out.new ≡ sets out.old at (decode text.now)) }
{
    let table = CLASSES;
    let classes = ClassTable::new(&table);
    let mut i = 0;
    let mut o = at;
    let mut extra: usize = 0;
    let mut count: usize = 0;
    // Kept: each turn goes on by as many bytes as its piece has, so no `for` has its steps.
    while i < text.len() {
        match step_at(text, i, classes) {
            Step::Good(k) => {
                let next = i + k;
                o = copy_few(&text[i..next], out, o);
                i = next;
            }
            Step::Bad(k) => {
                o = put_replacement(out, o);
                extra += k - 1;
                count += 1;
                i += k;
            }
        }
    }
    *replaced = count;
    text.len().saturating_add(2 * count - extra)
}
