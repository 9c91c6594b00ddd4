// The arguments of a run. No contract of std says anything of them, so no contract does here.
ghost use Rattle.std.specs.Prelude.{◌≤◌, IfSome, length};

use std::env::{Env, FillError};

// What the arguments ask of a program, before it looks at what they say.
#[derive(Clone, Copy)]
pub enum Asked {
    // There is no argument.
    Nothing,
    // `--help`, and no other.
    Help,
    Other,
}

// How many arguments there are, the program's name among them.
// Kept: the loop over places, since std's args allocates.
pub fn arg_count(rt: HostRuntime) -> usize {
    let mut room = [0u8; 1];
    for i in 0..usize::MAX {
        if let Err(FillError::NotPresent) = rt.arg(i, &mut room) {
            return i;
        }
    }
    usize::MAX
}

// Argument i, which is put at the room's start: none where it is missing, is longer than the room, or is no text in UTF-8.
pub fn arg(rt: HostRuntime, i: usize, room: &mut [u8]) -> Option<&str>
    ensures { IfSome result (λ text. length text.now ≤ length room.old) }
{
    let n = rt.arg(i, room).ok()?;
    str::from_utf8(&room[..n]).ok()
}

// Whether the first argument is `--help`.
fn is_help(rt: HostRuntime) -> bool {
    let mut room = [0u8; 6];
    arg(rt, 1, &mut room) == Some("--help")
}

pub fn arguments(rt: HostRuntime) -> Asked {
    match arg_count(rt) {
        0 | 1 => Asked::Nothing,
        2 if is_help(rt) => Asked::Help,
        _ => Asked::Other,
    }
}
