// A binary32 in print.
use base::float::Binary32;
use console::hex::Word;
use std::fmt;
use std::fmt::InlineText;

// What the longest number takes: a sign, 39 digits before the point, the point, and 149 digits behind it.
const ROOM: usize = 192;

// A number by its pattern: exactly, in decimal, if it is finite, or else the bits.
#[derive(Clone, Copy)]
pub(crate) struct Float(pub(crate) u32);

impl fmt::Display for Float {
    fn fmt<W: fmt::Write>(&self, f: &mut fmt::Formatter<W>) -> fmt::Result {
        let bits = self.0;
        match Binary32::from_bits(bits) {
            Binary32::Number(x) if x.is_finite() => {
                // A finite one is a multiple of 2^-149, so no digit is left out.
                let exact = InlineText::<ROOM>::of(format_args!("{x:.149}"));
                f.write_str(exact.as_str().trim_end_matches('0').trim_end_matches('.'))
            }
            _ => write!(f, "0x{}", Word(bits)),
        }
    }
}
