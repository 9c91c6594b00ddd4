// Reading a section into two tables.
ghost use Rattle.std.specs.Prelude.{◌≡◌, [], ◌≤◌, length};
ghost use Rattle.bflan.specs.Answer.{of_filled, of_read_error, of_reading};
ghost use Rattle.bflan.specs.pai1.Calls.{reading};
ghost use Rattle.bflan.specs.pai1.Reading.{flag_of, section};
ghost use Rattle.bflan.specs.declared.read.ReadError.TheVariants.{Fault as ReadFault};
ghost use Rattle.bflan.specs.inner.Walk.{read_into, told};

use crate::fault::Fault;
use crate::reader::section::section_at;
use crate::reader::tally::{Tables, Tally, fresh};
use crate::section::Section;
use base::outcome::{Answer, Numbers};

// What was filled: the words and the text bytes, and how many U+FFFD were put into the texts.
#[derive(Clone, Copy)]
pub struct Filled {
    pub words: usize,
    pub bytes: usize,
    pub replaced: usize,
}

#[derive(Clone, Copy)]
pub enum ReadError {
    Fault(Fault),
    // The section's length, above the limit.
    TooLong(usize),
    // The section reads, but does not fit: the words and the text bytes that it needs.
    TooShort(usize, usize),
}

impl From<Fault> for ReadError {
    ghost from_gives = { λ f e. e ≡ ReadFault f };

    fn from(f: Fault) -> ReadError {
        ReadError::Fault(f)
    }
}

impl Answer for Filled {
    ghost outcome = { of_filled };

    #[tactic(auto, unfolding(base::specs::Outcome::flat))]
    fn numbers(self) -> Numbers {
        Numbers(0, self.words, self.bytes, self.replaced, 0)
    }
}

impl Answer for ReadError {
    ghost outcome = { of_read_error };

    #[tactic(auto, unfolding(base::specs::Outcome::flat))]
    fn numbers(self) -> Numbers {
        match self {
            ReadError::Fault(f) => f.numbers(),
            ReadError::TooLong(size) => Numbers(2, size, 0, 0, 0),
            ReadError::TooShort(words, bytes) => Numbers(5, words, bytes, 0, 0),
        }
    }
}

// The word of the looping byte: any but 0 is yes.
#[tactic(auto, unfolding(crate::specs::pai1::Reading::flag_of))]
#[inline(always)]
pub fn flag_of(b: u32) -> u32
    ensures { result ≡ flag_of b }
{
    u32::from(b != 0)
}

// The longest section.
pub const LIMIT: usize = 16777216;

// The walk over a section into two tables, and what it counted; text `want` is looked for. What stores is compiled into this function: so the fields
// of `into` are in registers. In memory, a word that was stored by itself is read in a pair, which a processor has to wait for.
fn walk(s: Section, words: &mut [u32], texts: &mut [u8], want: usize) -> Result<Tally, Fault>
    ensures { told result words.new texts.new ≡ read_into s.entry.bytes.now want words.old texts.old (section s.entry.bytes.now 0) }
{
    let mut into = Tables {
        words,
        texts,
        tally: fresh(want),
    };
    let _end = section_at(s, &mut into)?;
    Ok(into.tally)
}

// The walk over a section, storing nothing; text `want` is looked for.
#[tactic(auto, using(crate::proofs::read::Answers::measured))]
pub(crate) fn measure(s: Section, want: usize) -> Result<Tally, Fault>
    ensures { result ≡ (read_into s.entry.bytes.now want [] [] (section s.entry.bytes.now 0)).0 }
{
    let mut words = [0u32; 0];
    let mut texts = [0u8; 0];
    walk(s, &mut words, &mut texts, want)
}

// Measured over no tables, and then filled. No text is looked for: any number serves.
pub fn read(section: &[u8], words: &mut [u32], texts: &mut [u8]) -> Result<Filled, ReadError>
    ensures { (of_reading result, words.new, texts.new) ≡ reading section.now words.old texts.old }
{
    let size = section.len();
    if LIMIT < size {
        return Err(ReadError::TooLong(size));
    }
    let s = Section { bytes: section };
    let needs = measure(s, 0)?;
    if words.len() < needs.words {
        return Err(ReadError::TooShort(needs.words, needs.bytes));
    }
    if texts.len() < needs.bytes {
        return Err(ReadError::TooShort(needs.words, needs.bytes));
    }
    let _ = walk(s, words, texts, 0);
    Ok(Filled {
        words: needs.words,
        bytes: needs.bytes,
        replaced: needs.replaced,
    })
}
