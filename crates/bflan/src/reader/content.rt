// Contents: a name, counts, and infos at offsets.
ghost use Rattle.std.specs.Prelude.{◌≡◌, ◌∷◌, ℕ, ◌+◌, ◌*◌, ◌<◌, ◌≤◌, length, take, drop};
ghost use Rattle.base.specs.Number.{get};
ghost use Rattle.base.specs.Run.{numbers_at};
ghost use Rattle.base.specs.Text.{before_zero};
ghost use Rattle.bflan.specs.Reader.{ok, stop, and_then, ret, word, text, visit};
ghost use Rattle.bflan.specs.pai1.Reading.{info, type_of, info_table, content, contents};
ghost use Rattle.bflan.specs.inner.Sought.{as_table};
ghost use Rattle.bflan.specs.inner.Walk.{walk_of, walked};

use crate::fault::Fault;
use crate::reader::info::Infos;
use crate::reader::offset::{byte_at, offset_at};
use crate::reader::row::cut;
use crate::reader::table::{Part, visit};
use crate::reader::tally::{Tables, Walk};
use crate::section::Section;
use base::cursor::{fixed_string_at, seek_to};
use base::run::numbers_end;
use base::seek::seek;
use base::text::first_zero;

// The type of a content whose info table stands at an offset: User of the Rust's `AnimType`.
// Kept: a type is a number from 0 to 4. Reader, judge and writer would each make an enum of it and turn it back, only to tell User from the others.
pub(crate) const USER: u32 = 2;

// Where the reading of a content stops whose thirty-two bytes are not all there: the reads in order.
#[tactic(auto, using(crate::proofs::reader::ContentParts::content_past, crate::proofs::reader::ContentParts::content_none, crate::proofs::reader::ContentParts::content_short, base::proofs::Seeks::seek_at, base::proofs::Zeros::fixed_text_lem), unfolding(crate::specs::inner::Row::width_of))]
fn short(s: &[u8], base: usize) -> Fault
    requires { length s.now < base + 32 }
    ensures { (i : ℕ) → content base s.now i ≡ stop result }
{
    match seek_to(s, base) {
        Err(e) => Fault::from(e),
        Ok(p) => match fixed_string_at(s, p, 28) {
            Err(e) => Fault::from(e),
            Ok((_len, q)) => cut(s, q, b"\x01\x01\x02"),
        },
    }
}

// Where the info table of a content stands, `p` being the place behind its head.
#[tactic(auto, using(crate::proofs::reader::Walks::handed_on, crate::proofs::reader::ContentParts::table_plain, crate::proofs::reader::ContentParts::table_user, crate::proofs::reader::ContentParts::table_past, crate::proofs::reader::ContentParts::table_short))]
fn table_of(s: &[u8], base: usize, kind: u32, p: usize) -> Result<usize, Fault>
    requires { (p ≤ length s.now) × (base ≤ 8589934592) }
    ensures { as_table result ≡ info_table base kind s.now p }
{
    if kind != USER {
        return Ok(p);
    }
    if s.len() - p < 4 {
        return Err(Fault::PastEnd(p, 4));
    }
    let to = base + offset_at(s, p);
    Ok(seek(s, to)?)
}

// The word of a content's type.
#[tactic(auto, unfolding(crate::specs::pai1::Reading::type_of))]
fn type_of(kind: u32) -> u32
    ensures { result ≡ type_of kind }
{
    if kind <= 4 {
        return kind;
    }
    0
}

// The length of the name at `base`, as it stands in the section.
fn name_size(s: &[u8], base: usize) -> usize
    requires { base + 28 ≤ length s.now }
    ensures { result ≡ before_zero (take 28 (drop base s.now)) }
{
    let end = base + 28;
    first_zero(&s[base..end])
}

// The name and two words of a content, and its infos, whose offsets stand at `table`; `p` is the place behind them.
fn name_and_infos(
    s: Section,
    base: usize,
    kind: u32,
    n: u32,
    table: usize,
    p: usize,
    into: &mut Tables<'_>,
) -> Walk
    requires { (base + 28 ≤ length s.bytes.now) × (table + 4 * n ≤ length s.bytes.now) }
    ensures { walked result into.new ≡ walk_of s.entry.bytes.now into.old (and_then (visit base info (numbers_at n s.entry.bytes.now table) s.entry.bytes.now p) (λ is. ret (text base (before_zero (take 28 (drop base s.entry.bytes.now))) ∷ word (type_of kind) ∷ word n ∷ is)) s.entry.bytes.now) }
{
    let len = name_size(s.bytes, base);
    into.put_text(s, base, len, false);
    into.put2(type_of(kind), n);
    visit(&Infos, s, base, table, n as usize, p, into)
}

// A content whose info table stands at `table`.
#[tactic(auto, using(crate::proofs::reader::Walks::told_handed, crate::proofs::reader::ContentParts::table_within, crate::proofs::reader::ContentParts::content_cut, base::proofs::Runs::table_fits))]
fn with_table(
    s: Section,
    base: usize,
    kind: u32,
    n: u32,
    table: usize,
    into: &mut Tables<'_>,
) -> Walk
    requires { (base + 32 ≤ length s.bytes.now) × (n ≡ get 1 s.bytes.now (base + 28)) × (kind ≡ get 1 s.bytes.now (base + 29)) × (info_table base kind s.bytes.now (base + 32) ≡ ok table table) }
    ensures { (i : ℕ) → walked result into.new ≡ walk_of s.entry.bytes.now into.old (content base s.entry.bytes.now i) }
{
    let p = numbers_end(s.bytes, table, n as usize)?;
    name_and_infos(s, base, kind, n, table, p, into)
}

// The content that starts at `base`.
#[tactic(auto, using(crate::proofs::reader::Walks::told_handed, crate::proofs::reader::Walks::told_stop, crate::proofs::reader::ContentParts::content_no))]
pub(crate) fn content_at(s: Section, base: usize, into: &mut Tables<'_>) -> Walk
    requires { base ≤ 4294967295 }
    ensures { (i : ℕ) → walked result into.new ≡ walk_of s.entry.bytes.now into.old (content base s.entry.bytes.now i) }
{
    if s.bytes.len() < base + 32 {
        return Err(short(s.bytes, base));
    }
    let n = byte_at(s.bytes, base + 28);
    let kind = byte_at(s.bytes, base + 29);
    let table = table_of(s.bytes, base, kind, base + 32)?;
    with_table(s, base, kind, n, table, into)
}

// Contents, as parts of a table.
#[derive(Clone, Copy)]
pub(crate) struct Contents;

impl Part for Contents {
    ghost part = { λ it. content };

    ghost most = { 4294967295 };

    fn read_at(&self, s: Section, base: usize, into: &mut Tables<'_>) -> Walk {
        content_at(s, base, into)
    }
}

// The `n` contents of a section by the place of their table.
#[tactic(auto, using(crate::proofs::reader::Walks::told_handed, crate::proofs::reader::SectionParts::contents_past, crate::proofs::reader::SectionParts::contents_cut, crate::proofs::reader::SectionParts::contents_on, base::proofs::Runs::table_fits, base::proofs::Seeks::seek_at))]
pub(crate) fn contents_of(s: Section, table: usize, n: usize, into: &mut Tables<'_>) -> Walk
    ensures { (i : ℕ) → walked result into.new ≡ walk_of s.entry.bytes.now into.old (contents table n s.entry.bytes.now i) }
{
    let q = seek_to(s.bytes, table)?;
    let p = numbers_end(s.bytes, q, n)?;
    visit(&Contents, s, 0, q, n, p, into)
}
