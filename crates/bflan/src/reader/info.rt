// Infos: eight bytes, and then targets at offsets, or extended data one after another.
ghost use Rattle.std.specs.Prelude.{◌≡◌, List, ℕ, ◌+◌, ◌*◌, ◌≤◌, length};
ghost use Rattle.base.specs.Number.{get};
ghost use Rattle.base.specs.Run.{numbers_at};
ghost use Rattle.bflan.specs.pai1.Letters.{fleu};
ghost use Rattle.bflan.specs.Reader.{visit};
ghost use Rattle.bflan.specs.pai1.Reading.{info};
ghost use Rattle.bflan.specs.inner.Walk.{walk_of, walked};

use crate::letters::{FLEU, letters_of};
use crate::reader::datum::data;
use crate::reader::offset::{byte_at, offset_at, word_at};
use crate::reader::row::sought_cut;
use crate::reader::table::{Part, visit};
use crate::reader::tally::{Tables, Walk};
use crate::reader::target::Targets;
use crate::section::Section;
use base::run::numbers_end;

// An extended info: two words, and its data.
#[tactic(auto, using(crate::proofs::reader::Walks::walk_stored, crate::proofs::reader::InfoParts::info_extended), unfolding(crate::specs::pai1::Letters::fleu, base::specs::Number::val))]
fn extended(s: Section, base: usize, n: u32, into: &mut Tables<'_>) -> Walk
    requires { (base + 8 ≤ length s.bytes.now) × (get 4 s.bytes.now base ≡ fleu) × (n ≡ get 1 s.bytes.now (base + 4)) }
    ensures { (i : ℕ) → walked result into.new ≡ walk_of s.entry.bytes.now into.old (info base s.entry.bytes.now i) }
{
    into.put2(FLEU, n);
    data(s, base + 8, n as usize, into)
}

// An info of any other letters: two words, and the targets at its offsets.
#[tactic(auto, using(crate::proofs::reader::Walks::told_handed, crate::proofs::reader::InfoParts::info_cut, base::proofs::Runs::table_fits))]
fn standard(s: Section, base: usize, letters: u32, n: u32, into: &mut Tables<'_>) -> Walk
    requires { (base + 8 ≤ length s.bytes.now) × (letters ≡ get 4 s.bytes.now base) × (letters ≡ fleu → ⊥) × (n ≡ get 1 s.bytes.now (base + 4)) }
    ensures { (i : ℕ) → walked result into.new ≡ walk_of s.entry.bytes.now into.old (info base s.entry.bytes.now i) }
{
    let table = base + 8;
    let count = n as usize;
    let q = numbers_end(s.bytes, table, count)?;
    into.put2(letters_of(letters), n);
    visit(&Targets { letters }, s, base, table, count, q, into)
}

// The info that starts at `base`.
#[tactic(auto, using(crate::proofs::reader::Walks::told_stop, crate::proofs::reader::InfoParts::info_short), unfolding(crate::specs::inner::Row::width_of, crate::specs::pai1::Letters::fleu, base::specs::Number::val))]
pub(crate) fn info_at(s: Section, base: usize, into: &mut Tables<'_>) -> Walk
    requires { base ≤ 8589934592 }
    ensures { (i : ℕ) → walked result into.new ≡ walk_of s.entry.bytes.now into.old (info base s.entry.bytes.now i) }
{
    if s.bytes.len() < base + 8 {
        return Err(sought_cut(s.bytes, base, b"\x04\x01\x01\x02"));
    }
    let letters = word_at(s.bytes, base);
    let n = byte_at(s.bytes, base + 4);
    if letters == FLEU {
        return extended(s, base, n, into);
    }
    standard(s, base, letters, n, into)
}

// Infos, as parts of a table.
#[derive(Clone, Copy)]
pub(crate) struct Infos;

impl Part for Infos {
    ghost part = { λ it. info };

    ghost most = { 8589934592 };

    fn read_at(&self, s: Section, base: usize, into: &mut Tables<'_>) -> Walk {
        info_at(s, base, into)
    }
}
