// Data of a FLEU info: five numbers, values, and a key text. What stores is compiled into its callers, as `read::walk` says.
ghost use Rattle.std.specs.Prelude.{◌≡◌, ℕ, List, ◌≤◌, length, map};
ghost use Rattle.bflan.specs.inner.DatumParts.{head, as_head, fields_of, key_text, values_and_key_text};
ghost use Rattle.bflan.specs.Reader.{many, word};
ghost use Rattle.bflan.specs.pai1.Reading.{datum};
ghost use Rattle.bflan.specs.inner.Walk.{after, walk_of, walked};

use crate::fault::Fault;
use crate::reader::keys::values;
use crate::reader::offset::{half_at, word_at};
use crate::reader::row::cut;
use crate::reader::tally::{Tables, Walk};
use crate::reader::texture::text_at;
use crate::section::Section;
use base::cursor::number_at;

// The numbers before a datum's values.
#[derive(Clone, Copy)]
pub struct Fields {
    pub size: u32,
    pub one: u32,
    pub two: u32,
    pub base: u32,
    pub three: u32,
}

// The head at `p`, tested once: the numbers, and the position after them.
#[tactic(auto, using(crate::proofs::reader::DatumParts::head_short, crate::proofs::reader::DatumParts::head_there), unfolding(crate::specs::inner::Row::width_of))]
fn head_at(s: &[u8], p: usize) -> Result<(Fields, usize), Fault>
    ensures { as_head result ≡ head s.now p }
{
    let size = s.len();
    if size < 16 || size - 16 < p {
        return Err(cut(s, p, b"\x04\x02\x02\x04\x04"));
    }
    let h = Fields {
        size: word_at(s, p),
        one: half_at(s, p + 4),
        two: half_at(s, p + 6),
        base: word_at(s, p + 8),
        three: word_at(s, p + 12),
    };
    Ok((h, p + 16))
}

// The five words of a head.
#[inline(always)]
fn put_head(into: &mut Tables<'_>, h: Fields)
    ensures { (s : List ℕ) → into.new ≡ after s into.old (map word (fields_of h)) }
{
    into.put2(h.size, h.one);
    into.put2(h.two, h.base);
    into.put1(h.three);
}

// The key text, whose offset stands at `p` and counts from there.
#[tactic(auto, using(base::proofs::Numbers::read_value_lem, crate::proofs::reader::Walks::told_handed, crate::proofs::reader::DatumParts::key_past), unfolding(crate::specs::inner::DatumParts::key_text, crate::specs::Reader::num))]
#[inline(always)]
fn key_text(s: Section, p: usize, into: &mut Tables<'_>) -> Walk
    ensures { walked result into.new ≡ walk_of s.entry.bytes.now into.old (key_text s.entry.bytes.now p) }
{
    let (offset, _next) = number_at::<u32>(s.bytes, p)?;
    text_at(s, p + (offset as usize), into)
}

// `n` values from `p` on, and the key text behind them.
#[tactic(auto, using(crate::proofs::reader::Walks::turn_no, crate::proofs::reader::Walks::turn_on, crate::proofs::reader::Walks::handed_on, crate::proofs::reader::DatumParts::behind_is))]
#[inline(always)]
fn values_and_key(s: Section, p: usize, n: usize, into: &mut Tables<'_>) -> Walk
    ensures { walked result into.new ≡ walk_of s.entry.bytes.now into.old (values_and_key_text n s.entry.bytes.now p) }
{
    let q = values(s.bytes, p, n, into)?;
    key_text(s, q, into)
}

// The datum at `p`.
#[tactic(auto, using(crate::proofs::reader::Walks::told_handed, crate::proofs::reader::DatumParts::datum_no))]
#[inline(always)]
pub(crate) fn datum_at(s: Section, p: usize, into: &mut Tables<'_>) -> Walk
    ensures { walked result into.new ≡ walk_of s.entry.bytes.now into.old (datum s.entry.bytes.now p) }
{
    let (h, q) = head_at(s.bytes, p)?;
    let n = 3 * (h.base as usize);
    put_head(into, h);
    values_and_key(s, q, n, into)
}

// `n` data from `p` on.
#[tactic(auto, using(crate::proofs::reader::Walks::many_next, crate::proofs::reader::Walks::many_end, crate::proofs::reader::Walks::walking_turn, crate::proofs::reader::Walks::walking_end))]
#[inline(always)]
pub(crate) fn data(s: Section, p: usize, n: usize, into: &mut Tables<'_>) -> Walk
    ensures { walked result into.new ≡ walk_of s.entry.bytes.now into.old (many n datum s.entry.bytes.now p) }
{
    let mut q = p;
    for _i in 0..n {
        q = datum_at(s, q, into)?;
    }
    Ok(q)
}
