// Hexadecimal digits, in capitals.
ghost use Rattle.std.specs.Prelude.{◌≡◌, ◌<◌, Some};
ghost use Rattle.console.specs.Hex.{hex_digit, two_digits, word_digits, escaped};

use std::fmt;

// The digit of a number's last four bits.
#[tactic(auto, unfolding(crate::specs::Hex::hex_digit))]
pub fn hex_digit(n: u8) -> u8
    ensures { (result ≡ hex_digit n) × (result < 128) }
{
    let d = n % 16;
    if d < 10 {
        return 48 + d;
    }
    55 + d
}

// A byte by its two digits.
#[derive(Clone, Copy)]
pub struct Hex(pub u8);

impl fmt::Display for Hex {
    ghost output = { λ h. Some (two_digits h.0) };

    #[tactic(auto, unfolding(crate::specs::Hex::two_digits))]
    fn fmt<W: fmt::Write>(&self, f: &mut fmt::Formatter<W>) -> fmt::Result {
        f.write_char(char::from(hex_digit(self.0 / 16)))?;
        f.write_char(char::from(hex_digit(self.0)))
    }
}

// A number of four bytes by its eight digits, as the bits of a float.
#[derive(Clone, Copy)]
pub struct Word(pub u32);

impl fmt::Display for Word {
    ghost output = { λ w. Some (word_digits w.0) };

    #[tactic(auto, unfolding(crate::specs::Hex::word_digits, base::specs::Number::le))]
    fn fmt<W: fmt::Write>(&self, f: &mut fmt::Formatter<W>) -> fmt::Result {
        let [a, b, c, d] = self.0.to_le_bytes();
        write!(f, "{}{}{}{}", Hex(d), Hex(c), Hex(b), Hex(a))
    }
}

// A byte that is not to be printed as it is: `\x` and its two digits.
#[derive(Clone, Copy)]
pub struct Escaped(pub u8);

impl fmt::Display for Escaped {
    ghost output = { λ e. Some (escaped e.0) };

    #[tactic(auto, unfolding(crate::specs::Hex::escaped))]
    fn fmt<W: fmt::Write>(&self, f: &mut fmt::Formatter<W>) -> fmt::Result {
        let digits = Hex(self.0);
        write!(f, "\\x{digits}")
    }
}
