// Reads a section on standard input and writes it again to standard output, or only `refused N` with document 01's number.
//
// Where standard input cannot be read, the answer is `refused 3`, whatever came before, and standard error has the reason. Where
// standard output cannot be written, standard error says so. `--help` is answered by the usage; any other argument too, on standard
// error and with nothing on standard output.
#![tactic(auto)]

ghost use Rattle.std.specs.Prelude.{◌≡◌, length};
ghost use Rattle.std.proofs.lemmas.List.Edits.{sets};
ghost use Rattle.round_trip.specs.declared.Refused.TheVariants.{Reading, Writing};
ghost use Rattle.round_trip.specs.Trip.{answered, number_of, of_trip, refusal, replied, trip, written_again};

use base::fill::copy;
use base::outcome::Answer;
use base::part::part;
use bflan::read::{ReadError, read};
use bflan::write::{WriteError, write};
use console::input::read_input;
use console::program::{Body, Failure, Program};
use console::room::{BYTES, MOST, ROOM, WORDS, room};
use itoa::Buffer;
use std::io;

const PROGRAM: Program = Program {
    name: "round_trip",
    usage: "usage: round_trip < section\n\
          Reads a pai1 section of at most 65536 bytes from standard input, and writes it again to\n\
          standard output: in the order of document 01, with no gaps. A section that is turned down\n\
          is answered by 'refused N' only, with the number of the refusal.\n\
          example: round_trip < crates/round_trip/stdin > written.pai1\n",
    undone: "no section was written",
};

// Why there is no section.
#[derive(Clone, Copy)]
enum Refused {
    // Standard input could not be read.
    Unread,
    // The input is longer than the longest.
    TooLong,
    // The section does not read, or its record has no room in the tables.
    Reading(ReadError),
    // The record is not written.
    Writing(WriteError),
}

impl From<ReadError> for Refused {
    ghost from_gives = { λ error refused. refused ≡ Reading error };

    fn from(error: ReadError) -> Refused {
        Refused::Reading(error)
    }
}

impl From<WriteError> for Refused {
    ghost from_gives = { λ error refused. refused ≡ Writing error };

    fn from(error: WriteError) -> Refused {
        Refused::Writing(error)
    }
}

impl Refused {
    // Document 01's number.
    fn number(self) -> usize
        ensures { result ≡ number_of self }
    {
        match self {
            Refused::Unread => 3,
            Refused::TooLong => 2,
            Refused::Reading(error) => error.numbers().0,
            Refused::Writing(error) => error.numbers().0,
        }
    }
}

// The record, written again: the section's length.
fn write_again(words: &[u32], texts: &[u8], out: &mut [u8]) -> Result<usize, Refused>
    ensures { (of_trip result, out.new) ≡ written_again words.now texts.now out.old }
{
    let len = write(words, texts, out)?;
    Ok(len)
}

// The words and text bytes that the reading filled, written again.
// Kept: `words`, `texts` and `out` as three arguments, here and below, since each contract names each of them.
fn round_trip(
    section: &[u8],
    words: &mut [u32],
    texts: &mut [u8],
    out: &mut [u8],
) -> Result<usize, Refused>
    ensures { (of_trip result, out.new) ≡ trip section.now words.old texts.old out.old }
{
    if MOST < section.len() {
        return Err(Refused::TooLong);
    }
    let filled = read(section, words, texts)?;
    write_again(&words[0..filled.words], &texts[0..filled.bytes], out)
}

// `refused N` and a newline, from the output's start on: their length.
// Kept: three copies in place of `write!`, which says nothing of the bytes behind a `&mut [u8]`; this contract names each.
fn refuse(number: usize, out: &mut [u8]) -> usize
    ensures { (result ≡ length (refusal number)) × (out.new ≡ sets out.old 0 (refusal number)) }
{
    let mut buffer = Buffer::new();
    let digits = buffer.format(number).as_bytes();
    let n = digits.len();
    copy(b"refused ", out, 0);
    copy(digits, out, 8);
    copy(b"\n", out, n + 8);
    n + 9
}

// The bytes to print stand from the output's start on: their length.
fn reply(t: Result<usize, Refused>, out: &mut [u8]) -> usize
    ensures { (result, out.new) ≡ replied (of_trip t, out.old) }
{
    match t {
        Ok(len) => len,
        Err(refused) => refuse(refused.number(), out),
    }
}

// The answer to a section.
fn run(section: &[u8], words: &mut [u32], texts: &mut [u8], out: &mut [u8]) -> usize
    ensures { (result, out.new) ≡ replied (trip section.now words.old texts.old out.old) }
{
    let t = round_trip(section, words, texts, out);
    reply(t, out)
}

// All that the program does between its reading of standard input and its writing to standard output.
fn answer(
    input: io::Result<usize>,
    room: &[u8],
    words: &mut [u32],
    texts: &mut [u8],
    out: &mut [u8],
) -> usize
    ensures { (result, out.new) ≡ answered input room.now words.old texts.old out.old }
{
    match input {
        Ok(n) => run(part(room, 0, n), words, texts, out),
        Err(_error) => reply(Err(Refused::Unread), out),
    }
}

struct RoundTrip;

impl Body for RoundTrip {
    fn run(rt: HostRuntime) -> Result<(), Failure> {
        let mut bytes = room::<u8, ROOM>();
        let input = read_input(&mut rt.stdin(), &mut bytes);
        if let Err(error) = input {
            PROGRAM.say_failure(rt, Failure::Input(error));
        }
        let mut words = room::<u32, WORDS>();
        let mut texts = room::<u8, BYTES>();
        let mut out = room::<u8, BYTES>();
        let len = answer(input, &bytes, &mut words, &mut texts, &mut out);
        rt.write_all(part(&out, 0, len))?;
        Ok(())
    }
}

fn main(rt: HostRuntime) {
    PROGRAM.start::<RoundTrip>(rt)
}
