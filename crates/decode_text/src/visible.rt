// A text of the input, written so that it steers no terminal.
use console::hex::Escaped;
use std::io;

fn is_control(b: u8) -> bool {
    matches!(b, 0x00..=0x1F | 0x7F)
}

// The bytes as they are, which need not be text, but for control bytes.
pub(crate) fn write_visible(out: HostRuntime, text: &[u8]) -> io::Result<()> {
    for piece in text.split_inclusive(|b| is_control(*b)) {
        match piece {
            [before @ .., last] if is_control(*last) => {
                out.write_all(before)?;
                print!(out; "{}", Escaped(*last))?;
            }
            _ => out.write_all(piece)?,
        }
    }
    Ok(())
}
