// Writing a record as a section.
ghost use Rattle.std.specs.Prelude.{◌≡◌};
ghost use Rattle.bflan.specs.Writing.{of_write_error, of_writing, write_error};
ghost use Rattle.bflan.specs.pai1.Calls.{writing};

use crate::judge::{Misfit, judge_section};
use crate::read::LIMIT;
use crate::writer::section::put_section;
use base::outcome::{Answer, Numbers};

#[derive(Clone, Copy)]
pub enum WriteError {
    // A word is missing, out of range or over: its index.
    BadWord(usize),
    // A text is missing, ill-formed, with a zero, or over: where the fault stands among the texts.
    BadText(usize),
    // The section would be longer than the limit.
    OverLimit,
    // The output is too short: the section's length.
    OutputTooShort(usize),
}

impl From<Misfit> for WriteError {
    ghost from_gives = { λ misfit error. error ≡ write_error misfit };

    fn from(misfit: Misfit) -> WriteError {
        match misfit {
            Misfit::Word(index) => WriteError::BadWord(index),
            Misfit::Text(index) => WriteError::BadText(index),
        }
    }
}

impl Answer for WriteError {
    ghost outcome = { of_write_error };

    #[tactic(auto, unfolding(base::specs::Outcome::flat))]
    fn numbers(self) -> Numbers {
        match self {
            WriteError::BadWord(index) => Numbers(6, index, 0, 0, 0),
            WriteError::BadText(index) => Numbers(7, index, 0, 0, 0),
            WriteError::OverLimit => Numbers(8, LIMIT, 0, 0, 0),
            WriteError::OutputTooShort(len) => Numbers(9, len, 0, 0, 0),
        }
    }
}

// Judged and measured, and then written from the output's start on. The section's length.
pub fn write(words: &[u32], texts: &[u8], out: &mut [u8]) -> Result<usize, WriteError>
    ensures { (of_writing result, out.new) ≡ writing words.now texts.now out.old }
{
    let size = judge_section(words, texts)?.size;
    if LIMIT < size {
        return Err(WriteError::OverLimit);
    }
    if out.len() < size {
        return Err(WriteError::OutputTooShort(size));
    }
    put_section(words, texts, out);
    Ok(size)
}
