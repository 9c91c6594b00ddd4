// Texts that end at a zero: texture names, each at an offset of a table, and single ones.
ghost use Rattle.std.specs.Prelude.{◌≡◌, ℕ, ◌+◌, ◌*◌, ◌≤◌, length};
ghost use Rattle.base.specs.Run.{numbers_at};
ghost use Rattle.bflan.specs.Reader.{one_ended, visit};
ghost use Rattle.bflan.specs.pai1.Reading.{texture};
ghost use Rattle.bflan.specs.inner.Sought.{as_name, name_end, AsIs, guess_of};
ghost use Rattle.bflan.specs.inner.Walk.{walk_of, walked};

use crate::fault::Fault;
use crate::reader::offset::offset_at;
use crate::reader::tally::{Tables, Walk};
use crate::section::Section;
use base::cursor::null_terminated_string_at;
use base::seek::seek;
use base::text::plain_text;

// A name: where it starts, its length, the position behind its zero, and whether it is known to be shown as it is.
// Kept: `plain` is a flag beside the others, none of which it makes void. Two kinds of names would have the same three fields.
#[derive(Clone, Copy)]
pub struct Name {
    pub start: usize,
    pub len: usize,
    pub next: usize,
    pub plain: bool,
}

// The text at `p` that ends at a zero.
#[tactic(auto, using(base::proofs::Zeros::ended_text_lem), unfolding(crate::specs::Reader::one_ended, crate::specs::Reader::ended_text))]
fn ended_name(s: &[u8], p: usize) -> Result<Name, Fault>
    ensures { (as_name result ≡ one_ended s.now p) × (name_end result ≤ length s.now) × AsIs s.now result }
{
    let (len, next) = null_terminated_string_at(s, p)?;
    Ok(Name {
        start: p,
        len,
        next,
        plain: false,
    })
}

// The texture name that starts at `base`, where it stands. It is tried first whether it has `guess` bytes; that changes no answer.
// Kept: `guess` is no `Option`. A plain text has 8 to 32 bytes, so 0 is a guess that fails.
#[tactic(auto, using(crate::proofs::reader::Walks::handed_on, crate::proofs::reader::Emits::texture_past, crate::proofs::reader::Emits::texture_on))]
fn name_at(s: &[u8], base: usize, guess: usize) -> Result<Name, Fault>
    ensures { ((i : ℕ) → as_name result ≡ texture base s.now i) × (name_end result ≤ length s.now) × AsIs s.now result }
{
    if plain_text(s, base, guess) {
        return Ok(Name {
            start: base,
            len: guess,
            next: base + guess + 1,
            plain: true,
        });
    }
    let p = seek(s, base)?;
    ended_name(s, p)
}

// A guess at the length of the name whose entry `off` of an offset table stands at `at`, the first of `left`: names stand in the table's order, so
// this one ends before the next one starts.
#[tactic(auto, unfolding(crate::specs::inner::Sought::guess_of))]
fn guess_at(s: &[u8], at: usize, left: usize, off: usize) -> usize
    requires { at + 4 * left ≤ length s.now }
    ensures { result ≡ guess_of s.now at left off }
{
    if left < 2 {
        return 0;
    }
    let next = offset_at(s, at + 4);
    if next <= off {
        return 0;
    }
    next - off - 1
}

// The text that starts at `base`, read as a texture name is, and stored. A datum's key text is such a one.
#[tactic(auto, using(crate::proofs::reader::Walks::told_handed, crate::proofs::reader::Walks::told_items))]
#[inline(always)]
pub(crate) fn text_at(s: Section, base: usize, into: &mut Tables<'_>) -> Walk
    ensures { (i : ℕ) → walked result into.new ≡ walk_of s.entry.bytes.now into.old (texture base s.entry.bytes.now i) }
{
    let name = name_at(s.bytes, base, 0)?;
    into.put_text(s, name.start, name.len, name.plain);
    Ok(name.next)
}

// The texture names at the `n` offsets of the table at `table`, which count from `base`.
// Kept: a loop beside `visit`, since a name is guessed from the entry behind its own, which a `Part` does not see.
#[tactic(auto, using(crate::proofs::reader::Walks::visit_end, crate::proofs::reader::Walks::walking_end))]
pub(crate) fn textures(
    s: Section,
    base: usize,
    table: usize,
    n: usize,
    pos: usize,
    into: &mut Tables<'_>,
) -> Walk
    requires { (base ≤ 16777216) × (table + 4 * n ≤ length s.bytes.now) }
    ensures { walked result into.new ≡ walk_of s.entry.bytes.now into.old (visit base texture (numbers_at n s.entry.bytes.now table) s.entry.bytes.now pos) }
{
    let mut p = pos;
    for i in 0..n {
        let at = table + 4 * i;
        let off = offset_at(s.bytes, at);
        let guess = guess_at(s.bytes, at, n - i, off);
        let name = name_at(s.bytes, base + off, guess)?;
        into.put_text(s, name.start, name.len, name.plain);
        p = name.next;
    }
    Ok(p)
}
