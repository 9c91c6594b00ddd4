// What is said of a section that does not read: the refusal's number, its values, and a sentence.
ghost use Rattle.std.specs.Prelude.{Some};
ghost use Rattle.console.specs.Refusal.{refused_text, values_text, letter_text, letters_text, bytes_text, why_text, too_long_text};

use crate::hex::Escaped;
use crate::room::{MOST, ROOM};
use base::outcome::Answer;
use bflan::fault::Fault;
use bflan::read::ReadError;
use std::fmt;

// A refusal's values: one, or two with a comma between them.
#[derive(Clone, Copy)]
struct Values(Fault);

impl fmt::Display for Values {
    ghost output = { λ v. Some (values_text v.0) };

    #[tactic(auto, unfolding(crate::specs::Refusal::values_text))]
    fn fmt<W: fmt::Write>(&self, f: &mut fmt::Formatter<W>) -> fmt::Result {
        match self.0 {
            Fault::OtherLetters(letters) => write!(f, "{letters}"),
            Fault::PastEnd(offset, requested) => write!(f, "{offset}, {requested}"),
            Fault::NoZero(start) => write!(f, "{start}"),
        }
    }
}

// The number and the values: `refused 3 (4, 4)`.
#[derive(Clone, Copy)]
pub struct Refused(pub Fault);

impl fmt::Display for Refused {
    ghost output = { λ r. Some (refused_text r.0) };

    #[tactic(auto, using(crate::proofs::Refusals::first_number), unfolding(crate::specs::Refusal::refused_text))]
    fn fmt<W: fmt::Write>(&self, f: &mut fmt::Formatter<W>) -> fmt::Result {
        let number = self.0.numbers().0;
        let values = Values(self.0);
        write!(f, "refused {number} ({values})")
    }
}

// One of the four letters within quotes, which can be any byte: escaped as show_tracks does it in a text, and where it is no ASCII.
#[derive(Clone, Copy)]
struct Letter(u8);

impl fmt::Display for Letter {
    ghost output = { λ l. Some (letter_text l.0) };

    #[tactic(auto, unfolding(crate::specs::Refusal::letter_text))]
    fn fmt<W: fmt::Write>(&self, f: &mut fmt::Formatter<W>) -> fmt::Result {
        match self.0 {
            b'"' => f.write_str("\\\""),
            b'\\' => f.write_str("\\\\"),
            0x20..=0x7E => f.write_char(char::from(self.0)),
            _ => f.write(Escaped(self.0)),
        }
    }
}

// The four letters; the first is the number's lowest byte.
#[derive(Clone, Copy)]
struct Letters(usize);

impl fmt::Display for Letters {
    ghost output = { λ l. Some (letters_text l.0) };

    #[tactic(auto, unfolding(crate::specs::Refusal::letters_text, base::specs::Number::le))]
    fn fmt<W: fmt::Write>(&self, f: &mut fmt::Formatter<W>) -> fmt::Result {
        let [a, b, c, d, ..] = self.0.to_le_bytes();
        write!(f, "{}{}{}{}", Letter(a), Letter(b), Letter(c), Letter(d))
    }
}

// A count of bytes: `1 byte`, `4 bytes`.
#[derive(Clone, Copy)]
struct Bytes(usize);

impl fmt::Display for Bytes {
    ghost output = { λ b. Some (bytes_text b.0) };

    #[tactic(auto, unfolding(crate::specs::Refusal::bytes_text))]
    fn fmt<W: fmt::Write>(&self, f: &mut fmt::Formatter<W>) -> fmt::Result {
        match self.0 {
            1 => f.write_str("1 byte"),
            n => write!(f, "{n} bytes"),
        }
    }
}

// Why, up to the line's end. The Rust crate in rust/pai1 says it by the same sentences.
#[derive(Clone, Copy)]
pub struct Why(pub Fault);

impl fmt::Display for Why {
    ghost output = { λ w. Some (why_text w.0) };

    #[tactic(auto, unfolding(crate::specs::Refusal::why_text))]
    fn fmt<W: fmt::Write>(&self, f: &mut fmt::Formatter<W>) -> fmt::Result {
        match self.0 {
            Fault::OtherLetters(letters) => {
                let letters = Letters(letters);
                write!(
                    f,
                    ": the section's letters are \"{letters}\" and not \"pai1\""
                )
            }
            Fault::PastEnd(offset, requested) => {
                let bytes = Bytes(requested);
                write!(
                    f,
                    ": the section asks for {bytes} at offset {offset}, past its end"
                )
            }
            Fault::NoZero(start) => {
                write!(
                    f,
                    ": the text at offset {start} has no zero byte at its end"
                )
            }
        }
    }
}

// An input that fills the room is refused as a section over the limit is. (Where it ends is not looked for, so its length is not said.)
#[derive(Clone, Copy)]
pub struct TooLong;

impl fmt::Display for TooLong {
    ghost output = { λ _. Some too_long_text };

    #[tactic(auto, using(crate::proofs::Refusals::first_number), unfolding(crate::specs::Refusal::too_long_text))]
    fn fmt<W: fmt::Write>(&self, f: &mut fmt::Formatter<W>) -> fmt::Result {
        let number = ReadError::TooLong(ROOM).numbers().0;
        write!(f, "refused {number}: the input is longer than {MOST} bytes")
    }
}
