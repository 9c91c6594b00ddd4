// What a program reads from standard input. The contract of std's read says nothing of the bytes that came, of an end of the input or of
// a failure, so none does here: a count lies within the room, and that is all.
ghost use Rattle.std.specs.Prelude.{◌≤◌, IfOk, length};

use std::io;
use std::io::Read;

// Reads to the end of the input or until the room is full, and gives how many bytes then stand at the room's start.
// Kept: a loop that counts, since std's read_to_end allocates, and its read_exact says no count.
pub fn read_input(input: &mut impl Read, room: &mut [u8]) -> io::Result<usize>
    ensures { IfOk result (λ n. n ≤ length room.old) }
{
    let mut n = 0;
    while n < room.len() {
        match input.read(&mut room[n..])? {
            0 => break,
            more => n += more,
        }
    }
    Ok(n)
}
