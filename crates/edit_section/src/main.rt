// Edits a section: reads it from standard input, makes the changes that the arguments say, one after the other, and writes what
// they leave to standard output.
//
//     frames V                 the frame count
//     looping V                0 or 1
//     layer C I T V            a target's layer
//     target C I T V           a target's number
//     constant C I T K V       a key of a Constant curve: its value
//     step C I T K F V         a key of a Step curve: its frame and its value
//     hermite C I T K F V S    a key of a Hermite curve: its frame, its value and its slope
//     value C I D L N V        a value of extended data: content, info, datum, list, place in the list
//     undo                     takes back the last change that was not taken back
//
// Where the first argument is `show`, no change is made and no section is written: the others are places, and what stands there now is
// said, a line for each, as the change that would put it there.
//
//     frames, looping, layer C I T, target C I T, key C I T K, value C I D L N
//
// Places count from 0, as show_tracks prints them: content, info, target, key. A number is decimal, or hexadecimal behind `0x`. A
// float is given by its bits, as in 0x3F800000 for 1; the value of a Step key is a whole number and no float.
//
// The section has at most 65,536 bytes. The journal has room for 1,000 changes: with so many that no undo has taken back, the next
// one is turned down, `refused 12 (1000)`.
//
// A change that is turned down ends the run: nothing but `refused N at argument A: ..` is written, with document 01's number and the
// place of the change among the arguments. What is no change is answered by what is wrong with it, and how to say one, on standard
// error and with nothing on standard output. `--help`, or no argument, is answered by the usage.
//
// Where standard input cannot be read, no change is made and nothing is written, and standard error has the reason. Where standard
// output cannot be written, standard error says so, and what is written is the beginning of the output.
#![tactic(auto)]

mod arguments;
mod change;
mod refusal;
mod show;

use crate::arguments::{Arguments, Complaint};
use crate::change::{Step, step_at};
use crate::refusal::{Refusal, RefusedAt};
use crate::show::{Shown, place_at};
use console::argument::{Asked, arg, arg_count, arguments};
use console::input::read_input;
use console::program::{Body, Failure, Output, Program};
use console::refusal::TooLong;
use console::room::{MOST, PIECE, ROOM, room};
use edit::edit::{EditError, edit};
use edit::field::field_at;
use edit::undo::undo;
use std::io;

// The words of the journal: a thousand entries.
const JOURNAL: usize = 5000;

const PROGRAM: Program = Program {
    name: "edit_section",
    usage: "usage: edit_section CHANGE.. < section, where a CHANGE is one of\n  \
          frames V, looping V, layer C I T V, target C I T V, value C I D L N V,\n  \
          constant C I T K V, step C I T K F V, hermite C I T K F V S, undo\n\
          Content, Info, Target, Key, Datum, List and its Number count from 0. A number is\n\
          decimal, or hexadecimal behind 0x. Frame, Slope and the Value of constant, hermite\n\
          and value are floats, given by their bits. The Value of step is a whole number from 0\n\
          to 65535. The section has at most 65536 bytes. At most 1000 changes are kept to be\n\
          taken back: with so many, the next one is refused with 12 (1000). The section that the\n\
          changes leave is written to standard output, or only 'refused N' and why.\n\
          edit_section show PLACE.. < section says what stands at places now, each as the change that\n\
          would put it there: frames, looping, layer C I T, target C I T, key C I T K, value C I D L N\n\
          example: edit_section frames 60 looping 1 < crates/round_trip/stdin > edited.pai1\n",
    undone: "no section was written",
};

// Why not all that the arguments say is done.
#[derive(Clone, Copy)]
enum Stop {
    Misused(Complaint),
    Refused(RefusedAt),
    Unwritten(io::Error),
}

impl From<io::Error> for Stop {
    fn from(error: io::Error) -> Stop {
        Stop::Unwritten(error)
    }
}

// Makes the changes that the arguments say. (A proved loop has to end: there are no more of them than arguments.)
fn make_all(rt: HostRuntime, section: &mut [u8], text: &mut [u8]) -> Result<(), Stop> {
    let mut arguments = Arguments::behind(rt, 1, text);
    let mut journal = room::<u32, JOURNAL>();
    let mut count = 0;
    for _ in 0..arg_count(rt) {
        let Some(i) = arguments.next() else {
            break;
        };
        let step = step_at(&mut arguments, i).map_err(|misuse| Stop::Misused(Complaint(
            misuse, "change",
        )))?;
        let made = match step {
            Step::Make(change) => edit(section, &mut journal, count, change).map_err(Refusal::Edit),
            Step::Undo => undo(section, &journal, count).map_err(Refusal::Undo),
        };
        count = made.map_err(|refusal| Stop::Refused(RefusedAt(i, refusal)))?;
    }
    Ok(())
}

// Says what stands at the places that the arguments behind `show` say.
// Kept: a loop of its own, like that of `make_all`. A shared one over a closure would have to hand on the state that each changes.
fn show_all(
    rt: HostRuntime,
    section: &[u8],
    text: &mut [u8],
    output: &mut Output,
) -> Result<(), Stop> {
    let mut arguments = Arguments::behind(rt, 2, text);
    for _ in 0..arg_count(rt) {
        let Some(i) = arguments.next() else {
            break;
        };
        let place = place_at(&mut arguments, i).map_err(|misuse| Stop::Misused(Complaint(
            misuse, "place",
        )))?;
        let value = field_at(section, place).map_err(|error| Stop::Refused(RefusedAt(
            i,
            Refusal::Edit(EditError::from(error)),
        )))?;
        if output.is_complete() {
            output.note(rt, println!(rt; "{}", Shown(place, value)));
        }
    }
    Ok(())
}

// Whether the first argument is `show`.
fn shows(rt: HostRuntime, text: &mut [u8]) -> bool {
    arg(rt, 1, text) == Some("show")
}

// Does what the arguments say with a section that was read.
fn run(rt: HostRuntime, section: &mut [u8], output: &mut Output) -> Result<(), Stop> {
    let mut text = room::<u8, PIECE>();
    if shows(rt, &mut text) {
        return show_all(rt, section, &mut text, output);
    }
    make_all(rt, section, &mut text)?;
    rt.write_all(section)?;
    Ok(())
}

struct EditSection;

impl Body for EditSection {
    fn run(rt: HostRuntime) -> Result<(), Failure> {
        let mut bytes = room::<u8, ROOM>();
        let n = read_input(&mut rt.stdin(), &mut bytes).map_err(Failure::Input)?;
        if MOST < n {
            println!(rt; "{TooLong}")?;
            return Ok(());
        }
        let mut output = Output::new(PROGRAM);
        match run(rt, &mut bytes[..n], &mut output) {
            Ok(()) => {}
            Err(Stop::Misused(complaint)) => {
                let _ = eprint!(rt; "{complaint}\n{}", PROGRAM.usage);
            }
            Err(Stop::Refused(refused)) => {
                if output.is_complete() {
                    output.note(rt, println!(rt; "{refused}"));
                }
            }
            Err(Stop::Unwritten(error)) => return Err(Failure::Output(error)),
        }
        output.end(rt);
        Ok(())
    }
}

fn main(rt: HostRuntime) {
    match arguments(rt) {
        Asked::Nothing | Asked::Help => PROGRAM.help(rt),
        Asked::Other => PROGRAM.run::<EditSection>(rt),
    }
}
