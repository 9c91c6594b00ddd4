// Bytes in hexadecimal.
ghost use Rattle.std.specs.Prelude.{◌<◌, IfSome, length};

use arrayvec::ArrayVec;
use console::hex::hex_digit;

// The value of a digit.
fn digit(b: u8) -> Option<u8>
    ensures { IfSome result (λ d. d < 16) }
{
    u8::try_from(char::from(b).to_digit(16)?).ok()
}

// The byte that the two digits at the start of a text stand for, and what is behind them.
fn byte(text: &[u8]) -> Option<(u8, &[u8])>
    ensures { IfSome result (λ read. length read.1.now < length text.now) }
{
    let [high, low, rest @ ..] = text else {
        return None;
    };
    Some((16 * digit(*high)? + digit(*low)?, rest))
}

// The bytes of a line up to its remark, or the rest of the line where no two digits are. (What has no room is left out.)
pub(crate) fn read_hex<'a, const N: usize>(
    line: &'a [u8],
    bytes: &mut ArrayVec<u8, N>,
) -> Result<(), &'a [u8]> {
    let mut rest = line;
    while let [first, behind @ ..] = rest {
        match first {
            b'#' => break,
            b' ' => rest = behind,
            _ => {
                let (b, behind) = byte(rest).ok_or(rest)?;
                let _ = bytes.try_push(b);
                rest = behind;
            }
        }
    }
    Ok(())
}

// The digits of bytes, a blank before each, from the room's start on. (What has no room is left out.)
// Kept: a room and no `Display`. By a `write!` of each byte's digits long lines take up to eight times as long.
pub(crate) fn put_digits(bytes: &[u8], room: &mut [u8]) {
    for (place, b) in room.chunks_exact_mut(3).zip(bytes) {
        if let [blank, high, low] = place {
            *blank = b' ';
            *high = hex_digit(*b / 16);
            *low = hex_digit(*b);
        }
    }
}
