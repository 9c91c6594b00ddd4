// Finding a text of a section, and handing it back.
ghost use Rattle.std.specs.Prelude.{◌≡◌, ◌+◌, ◌≤◌, length};
ghost use Rattle.std.proofs.Math.Seq.{slice};
ghost use Rattle.bflan.specs.Answer.{of_found, of_find_error, of_finding, shown, text_part, text_ptr};
ghost use Rattle.bflan.specs.declared.find.FindError.TheVariants.{Fault as FindFault};
ghost use Rattle.bflan.specs.pai1.Calls.{finding};

use crate::fault::Fault;
use crate::read::{LIMIT, measure};
use crate::section::Section;
use base::outcome::{Answer, Numbers};
use base::part::part;
use base::utf8::{decode_into, decoded_len, well_formed};

// A text that was found: its source (0 the section, 1 the scratch), its start and length there, and how many U+FFFD were put in.
// Kept: the source is a number, since C may hand any number back to `text_part`.
#[derive(Clone, Copy)]
pub struct Found {
    pub source: usize,
    pub start: usize,
    pub len: usize,
    pub replaced: usize,
}

#[derive(Clone, Copy)]
pub enum FindError {
    Fault(Fault),
    // The section's length, above the limit.
    TooLong(usize),
    // The section reads, but has no text of that number.
    NoSuchText,
    // The text is ill-formed and does not fit: the bytes that its decoding needs.
    ScratchTooShort(usize),
}

impl From<Fault> for FindError {
    ghost from_gives = { λ f e. e ≡ FindFault f };

    fn from(f: Fault) -> FindError {
        FindError::Fault(f)
    }
}

impl Answer for Found {
    ghost outcome = { of_found };

    #[tactic(auto, unfolding(base::specs::Outcome::flat))]
    fn numbers(self) -> Numbers {
        Numbers(0, self.source, self.start, self.len, self.replaced)
    }
}

impl Answer for FindError {
    ghost outcome = { of_find_error };

    #[tactic(auto, unfolding(base::specs::Outcome::flat))]
    fn numbers(self) -> Numbers {
        match self {
            FindError::Fault(f) => f.numbers(),
            FindError::TooLong(size) => Numbers(2, size, 0, 0, 0),
            FindError::NoSuchText => Numbers(10, 0, 0, 0, 0),
            FindError::ScratchTooShort(bytes) => Numbers(5, 0, bytes, 0, 0),
        }
    }
}

// The text of `len` bytes at `start`: where it stands, or decoded into the scratch.
fn show(s: Section, start: usize, len: usize, scratch: &mut [u8]) -> Result<Found, FindError>
    requires { start + len ≤ length s.bytes.now }
    ensures { (of_finding result, scratch.new) ≡ shown start (slice start (start + len) s.entry.bytes.now) scratch.old }
{
    let end = start + len;
    if well_formed(&s.bytes[start..end]) {
        return Ok(Found {
            source: 0,
            start,
            len,
            replaced: 0,
        });
    }
    let size = decoded_len(&s.bytes[start..end]);
    if scratch.len() < size {
        return Err(FindError::ScratchTooShort(size));
    }
    let mut replaced: usize = 0;
    decode_into(&s.bytes[start..end], scratch, 0, &mut replaced);
    Ok(Found {
        source: 1,
        start: 0,
        len: size,
        replaced,
    })
}

pub fn find_text(section: &[u8], text: usize, scratch: &mut [u8]) -> Result<Found, FindError>
    ensures { (of_finding result, scratch.new) ≡ finding section.now text scratch.old }
{
    let size = section.len();
    if LIMIT < size {
        return Err(FindError::TooLong(size));
    }
    let s = Section { bytes: section };
    let t = measure(s, text)?;
    if t.left <= text {
        return Err(FindError::NoSuchText);
    }
    show(s, t.start, t.len, scratch)
}

// A found text: a part of the section or of the scratch. Where there is none, the empty part at the section's start.
pub fn text_part<'a>(
    section: &'a [u8],
    scratch: &'a [u8],
    source: usize,
    start: usize,
    len: usize,
) -> &'a [u8]
    ensures { (result.now ≡ text_part section.now scratch.now source start len)
        × (result.ref_ptr ≡ text_ptr section.entry scratch.entry source start len) }
{
    if source == 0 {
        return part(section, start, len);
    }
    if source == 1 {
        let size = scratch.len();
        if start <= size {
            if len <= size - start {
                let end = start + len;
                return &scratch[start..end];
            }
        }
    }
    &section[0..0]
}
