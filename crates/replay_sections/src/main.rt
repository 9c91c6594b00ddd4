// Replays a sample of sections and records, read from standard input, that has the Rust reference's answers (rust/src/sample.rs
// and sample_records.rs have its format). Each section is read into tables that stand among marked places, and each text of a
// section that is read is looked up; each record is written into an output that stands among them. Answers, tables, the output
// and every place around them must be as the sample says.
//
// Where standard input cannot be read, nothing is replayed, and standard error has the reason. Where standard output cannot be
// written, standard error says so. `--help` is answered by the usage; any other argument too, on standard error.
#![tactic(auto)]

mod compare;
mod finding;
mod input;
mod reading;
mod record;
mod report;
mod writing;

use crate::finding::find_texts;
use crate::input::{Item, Rest};
use crate::reading::read_section;
use crate::report::Counts;
use crate::writing::write_record;
use console::input::read_input;
use console::program::{Body, Failure, Program};
use console::room::room;
use std::io;

// The room for the sample.
const ROOM: usize = 1048576;

const PROGRAM: Program = Program {
    name: "replay_sections",
    usage: "usage: replay_sections < sample\n\
          Reads a sample of sections and records with the Rust's answers from standard input, of less\n\
          than 1048576 bytes, replays each case, and writes a report to standard output: how many\n\
          cases there are of each answer, and each difference.\n\
          example: replay_sections < crates/replay_sections/stdin\n",
    undone: "nothing was replayed",
};

// Replays a case. False if it is none that the program is made for.
// Kept: a truth value within a `Result`, here and in what this calls. An error is a write that failed, and `?` hands it up to the program's end;
// a case of another kind only ends the replay, and the report is still written.
fn replay_case(item: &Item, counts: &mut Counts) -> io::Result<bool> {
    match item {
        Item::Case(c) => {
            let right = counts.case(c.answer.0) && read_section(c, counts)?;
            if right {
                find_texts(c, counts)?;
            }
            Ok(right)
        }
        Item::Record(r) => Ok(counts.case(r.answer.0) && write_record(r, counts)?),
    }
}

// Replays all cases, and gives what is left of the sample: nothing, if that is well-formed. (A proved loop has to end: no case is without a
// byte.)
fn replay<'a>(sample: &'a [u8], counts: &mut Counts) -> io::Result<Rest<'a>> {
    let mut rest = Rest(sample);
    for _ in 0..sample.len() {
        let mut behind = rest;
        let Some(item) = behind.item() else {
            break;
        };
        if !replay_case(&item, counts)? {
            break;
        }
        rest = behind;
    }
    Ok(rest)
}

// Replays a sample and reports.
fn replay_all(out: HostRuntime, sample: &[u8]) -> io::Result<()> {
    let mut counts = Counts::new(out);
    let rest = replay(sample, &mut counts)?;
    print!(out; "{counts}")?;
    let left = rest.0.len();
    // a sample that fills the room may have been cut
    if left > 0 || sample.len() >= ROOM {
        let at = sample.len().saturating_sub(left);
        println!(out; "malformed sample: no case at byte {at}")?;
    }
    Ok(())
}

struct ReplaySections;

impl Body for ReplaySections {
    fn run(rt: HostRuntime) -> Result<(), Failure> {
        let mut sample = room::<u8, ROOM>();
        let n = read_input(&mut rt.stdin(), &mut sample).map_err(Failure::Input)?;
        replay_all(rt, &sample[..n])?;
        Ok(())
    }
}

fn main(rt: HostRuntime) {
    PROGRAM.start::<ReplaySections>(rt)
}
