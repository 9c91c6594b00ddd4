// Prints the tracks of a section, which is read from standard input, a line for each part:
//
//     section: frames 60, looping yes, textures 1, contents 2, replaced 0
//     texture 0: "icon"
//     content 0: "P_base", Pane, infos 1
//     info 0 0: FLPA PaneSrtAnim, targets 1
//     track 0 0 0: "P_base" FLPA PaneSrtAnim TranslateX, layer 0, Hermite, keys 2: (0, 1.5, 0) (30, 2, -0.25)
//     content 1: "U", User, infos 1
//     info 1 0: FLEU ExtendedUserDataAnim, data 1
//     datum 1 0 0: "U" "key", header_size 0, unk_1 0, unk_2 0, base_count 2, unk_3 0: [1, 2] [0.5, 0x7FC00000] [0, -0]
//
// The numbers before the colon are the place: content, info, and target or datum. A key of a Constant curve is a value, of a Step
// curve a frame and a value, of a Hermite curve a frame, a value and a slope. A float is printed exactly, in decimal, and as its
// bits where it is infinite or a NaN. Letters that are not listed are `---- Invalid`, and so are their targets `Invalid`.
//
// A text stands in quotes. Within them `\"` and `\\` are a quote and a backslash, and `\x` with two digits is a byte of a control
// character or of U+2028 or U+2029, so that a line stays a line. `(ill-formed, replaced 2)` behind a text says that the section
// has bytes there that are no UTF-8, and that two U+FFFD are shown for them. The section's line has the sum over all texts: it
// says at a glance that texts were saved in another encoding. A U+FFFD that the section itself has is not counted.
//
// A section that is turned down is answered by document 01's number and values, and what is wrong: `refused 3 (4, 4): ..`.
//
// Where standard input cannot be read, nothing is printed, and standard error has the reason. Where standard output cannot be written,
// standard error says so, and what is written is the beginning of the output. `--help` is answered by the usage; any other argument
// too, on standard error and with nothing on standard output.
#![tactic(auto)]

mod float;
mod names;
mod text;
mod tracks;

use crate::tracks::show;
use base::outcome::Answer;
use bflan::read::{ReadError, read};
use console::input::read_input;
use console::program::{Body, Failure, Program};
use console::refusal::{Refused, TooLong, Why};
use console::room::{BYTES, MOST, ROOM, WORDS, room};
use std::io;

const PROGRAM: Program = Program {
    name: "show_tracks",
    usage: "usage: show_tracks < section\n\
          Reads a pai1 section of at most 65536 bytes from standard input, and prints it to standard\n\
          output: a line for each texture, content, info, track and extended datum. `replaced` counts\n\
          the U+FFFD shown for bytes that are no UTF-8, of a text and of the section. A section that\n\
          is turned down is answered by 'refused N', its values, and what is wrong with it.\n\
          example: show_tracks < crates/show_tracks/stdin\n",
    undone: "nothing was printed",
};

fn answer(out: HostRuntime, section: &[u8], words: &mut [u32], texts: &mut [u8]) -> io::Result<()> {
    if MOST < section.len() {
        return println!(out; "{TooLong}");
    }
    match read(section, words, texts) {
        // the texts are found in the section again, so their table is free
        Ok(filled) => show(out, section, words, filled.replaced, texts),
        Err(ReadError::Fault(f)) => println!(out; "{}{}", Refused(f), Why(f)),
        Err(ReadError::TooLong(_size)) => println!(out; "{TooLong}"),
        Err(ReadError::TooShort(n, m)) => {
            let number = ReadError::TooShort(n, m).numbers().0;
            println!(out;
                "refused {number} ({n}, {m}): the record has more than the {WORDS} words or the {BYTES} text bytes that there is room for"
            )
        }
    }
}

struct ShowTracks;

impl Body for ShowTracks {
    fn run(rt: HostRuntime) -> Result<(), Failure> {
        let mut input = room::<u8, ROOM>();
        let n = read_input(&mut rt.stdin(), &mut input).map_err(Failure::Input)?;
        let mut words = room::<u32, WORDS>();
        let mut texts = room::<u8, BYTES>();
        answer(rt, &input[..n], &mut words, &mut texts)?;
        Ok(())
    }
}

fn main(rt: HostRuntime) {
    PROGRAM.start::<ShowTracks>(rt)
}
