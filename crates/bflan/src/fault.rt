// What stops a reading.
ghost use Rattle.std.specs.Prelude.{◌≡◌};
ghost use Rattle.bflan.specs.Answer.{of_fault};

use base::error::{PastEnd, TextError};
use base::outcome::{Answer, Numbers};

#[derive(Clone, Copy)]
pub enum Fault {
    // A read or a seek past the end: the offset, and the bytes requested or the excess.
    PastEnd(usize, usize),
    // A text without a zero: its start.
    NoZero(usize),
    // Letters other than the section's own, as the number that their four bytes are.
    // Kept: a usize. A u32 shares a word with the enum's tag, each `?` of a walk splits that word, and names took 5 % more instructions to read.
    OtherLetters(usize),
}

impl From<PastEnd> for Fault {
    ghost use Rattle.bflan.specs.Reader.{past_fault};

    ghost from_gives = { λ e f. f ≡ past_fault e };

    fn from(e: PastEnd) -> Fault {
        Fault::PastEnd(e.offset, e.requested)
    }
}

impl From<TextError> for Fault {
    ghost use Rattle.bflan.specs.Reader.{text_fault};

    ghost from_gives = { λ e f. f ≡ text_fault e };

    fn from(e: TextError) -> Fault {
        match e {
            TextError::PastEnd(past) => Fault::PastEnd(past.offset, past.requested),
            TextError::NoZero(start) => Fault::NoZero(start),
        }
    }
}

impl Answer for Fault {
    ghost outcome = { of_fault };

    #[tactic(auto, unfolding(base::specs::Outcome::flat, crate::specs::Answer::of_fault))]
    fn numbers(self) -> Numbers {
        match self {
            Fault::PastEnd(offset, requested) => Numbers(3, offset, requested, 0, 0),
            Fault::NoZero(start) => Numbers(4, start, 0, 0, 0),
            Fault::OtherLetters(letters) => Numbers(1, letters, 0, 0, 0),
        }
    }
}
