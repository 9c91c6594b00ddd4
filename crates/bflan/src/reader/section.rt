// The section as a whole: a head of twenty bytes, textures, contents, and the seek to its end.
ghost use Rattle.std.specs.Prelude.{◌≡◌, ℕ, List, ◌+◌, ◌*◌, ◌≤◌, length, map};
ghost use Rattle.base.specs.Run.{numbers_at};
ghost use Rattle.bflan.specs.Reader.{word};
ghost use Rattle.bflan.specs.pai1.Reading.{body, section};
ghost use Rattle.bflan.specs.inner.SectionParts.{header, as_header, head, as_head, head_words, after_head, contents_and_size, textures_and_contents};
ghost use Rattle.bflan.specs.inner.Walk.{after, walk_of, walked};

use crate::fault::Fault;
use crate::read::flag_of;
use crate::reader::content::contents_of;
use crate::reader::offset::{byte_at, half_at, word_at};
use crate::reader::row::cut;
use crate::reader::tally::{Tables, Walk};
use crate::reader::texture::textures;
use crate::section::Section;
use base::cursor::{number_at, seek_to};
use base::run::numbers_end;

// The letters `pai1`, as the number that their four bytes are.
pub(crate) const PAI1: u32 = 0x3169_6170;

// The letters and the size that a section begins with (section.rs of the Rust).
#[derive(Clone, Copy)]
pub struct SectionHeader {
    pub magic: u32,
    pub size: u32,
}

// The header, read through a cursor.
#[tactic(auto, using(crate::proofs::reader::SectionParts::header_whole), unfolding(crate::specs::inner::SectionParts::header, crate::specs::Reader::num))]
fn header_at(s: &[u8]) -> Result<SectionHeader, Fault>
    ensures { as_header result ≡ header s.now 0 }
{
    let (magic, p) = number_at::<u32>(s, 0)?;
    let (size, _q) = number_at::<u32>(s, p)?;
    Ok(SectionHeader { magic, size })
}

// The numbers behind the header (PaneAnimInfo of the Rust), of which the reserve is not kept.
#[derive(Clone, Copy)]
pub struct SectionHead {
    pub frames: u32,
    pub looping: u32,
    pub textures: u32,
    pub contents: u32,
    pub table: u32,
}

// The head, tested once: where it is short, the read that is refused is looked for.
#[tactic(auto, using(crate::proofs::reader::SectionParts::head_short, crate::proofs::reader::SectionParts::head_there), unfolding(crate::specs::inner::Row::width_of))]
fn head_at(s: &[u8]) -> Result<SectionHead, Fault>
    ensures { as_head result ≡ head s.now 8 }
{
    if s.len() < 20 {
        return Err(cut(s, 8, b"\x02\x01\x01\x02\x02\x04"));
    }
    let frames = half_at(s, 8);
    let looping = byte_at(s, 10);
    let textures = half_at(s, 12);
    let contents = half_at(s, 14);
    let table = word_at(s, 16);
    Ok(SectionHead {
        frames,
        looping,
        textures,
        contents,
        table,
    })
}

// The four words of the head.
fn put_head(into: &mut Tables<'_>, h: SectionHead)
    ensures { (s : List ℕ) → into.new ≡ after s into.old (map word (head_words h)) }
{
    let looping = flag_of(h.looping);
    into.put2(h.frames, looping);
    into.put2(h.textures, h.contents);
}

// The contents, and the seek to the section's end.
#[tactic(auto, using(crate::proofs::reader::Walks::turn_no, crate::proofs::reader::SectionParts::ending_is, crate::proofs::reader::SectionParts::ending_past, crate::proofs::reader::SectionParts::ending_on, crate::proofs::reader::Walks::handed_on))]
fn ending(s: Section, size: usize, table: usize, n: usize, into: &mut Tables<'_>) -> Walk
    ensures { (i : ℕ) → walked result into.new ≡ walk_of s.entry.bytes.now into.old (contents_and_size size table n s.entry.bytes.now i) }
{
    let _p = contents_of(s, table, n, into)?;
    let end = seek_to(s.bytes, size)?;
    Ok(end)
}

// The textures by their `nt` offsets, `p` being the place behind these, and then the contents.
#[tactic(auto, using(crate::proofs::reader::Walks::turn_no, crate::proofs::reader::Walks::handed_on, crate::proofs::reader::SectionParts::parts_is))]
fn parts(
    s: Section,
    size: usize,
    nt: usize,
    p: usize,
    table: usize,
    nc: usize,
    into: &mut Tables<'_>,
) -> Walk
    requires { 20 + 4 * nt ≤ length s.bytes.now }
    ensures { walked result into.new ≡ walk_of s.entry.bytes.now into.old (textures_and_contents size (numbers_at nt s.entry.bytes.now 20) table nc s.entry.bytes.now p) }
{
    let _q = textures(s, 20, 20, nt, p, into)?;
    ending(s, size, table, nc, into)
}

// What is behind the head of a section.
#[tactic(auto, using(crate::proofs::reader::Walks::told_handed, crate::proofs::reader::SectionParts::behind_cut, base::proofs::Runs::table_fits))]
fn behind_head(s: Section, size: usize, h: SectionHead, into: &mut Tables<'_>) -> Walk
    requires { 20 ≤ length s.bytes.now }
    ensures { walked result into.new ≡ walk_of s.entry.bytes.now into.old (after_head size h s.entry.bytes.now 20) }
{
    let nt = h.textures as usize;
    let p = numbers_end(s.bytes, 20, nt)?;
    let nc = h.contents as usize;
    let table = h.table as usize;
    put_head(into, h);
    parts(s, size, nt, p, table, nc, into)
}

// What is behind the section's first eight bytes.
#[tactic(auto, using(crate::proofs::reader::Walks::told_handed, crate::proofs::reader::SectionParts::body_stop, crate::proofs::reader::SectionParts::body_on, crate::proofs::reader::SectionParts::head_fits))]
fn body_at(s: Section, size: usize, into: &mut Tables<'_>) -> Walk
    ensures { walked result into.new ≡ walk_of s.entry.bytes.now into.old (body size s.entry.bytes.now 8) }
{
    let h = head_at(s.bytes)?;
    behind_head(s, size, h, into)
}

// The section from its start.
#[tactic(auto, using(crate::proofs::reader::Walks::told_handed, crate::proofs::reader::Walks::told_stop, crate::proofs::reader::SectionParts::section_short, crate::proofs::reader::SectionParts::section_pai1, crate::proofs::reader::SectionParts::section_other), unfolding(crate::specs::pai1::Reading::own_letters, base::specs::Number::val))]
pub(crate) fn section_at(s: Section, into: &mut Tables<'_>) -> Walk
    ensures { walked result into.new ≡ walk_of s.entry.bytes.now into.old (section s.entry.bytes.now 0) }
{
    let h = header_at(s.bytes)?;
    let magic = h.magic;
    if magic != PAI1 {
        return Err(Fault::OtherLetters(magic as usize));
    }
    body_at(s, h.size as usize, into)
}
