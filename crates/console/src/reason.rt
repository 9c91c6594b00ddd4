// The system's words for why a call failed, as `No space left on device`. What std says of an error has its number behind them, as in
// ` (os error 28)`, which is left out.
use std::fmt::InlineText;
use std::{fmt, io};

// The room for what std says of an error. What has no room is left out.
const ROOM: usize = 128;

#[derive(Clone, Copy)]
pub(crate) struct Reason(pub(crate) io::Error);

impl fmt::Display for Reason {
    fn fmt<W: fmt::Write>(&self, f: &mut fmt::Formatter<W>) -> fmt::Result {
        let said = InlineText::<ROOM>::of(self.0);
        match said.as_str().split_once(" (os error ") {
            Some((words, _number)) => f.write_str(words),
            None => f.write_str(said.as_str()),
        }
    }
}
