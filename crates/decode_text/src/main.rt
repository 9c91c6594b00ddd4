// Decodes texts: each line of standard input that has bytes in hexadecimal, as `C0 AF 41`, is answered by the number of bytes
// of its decoding, how many U+FFFD were put in for what is ill-formed, and these bytes: `7, replaced 2: EF BF BD EF BF BD 41`. A blank
// line and one that starts with `#` are passed on. In any other line `#` begins a remark, so that ` # nothing` is the empty text. A line
// ends with a newline, or with a carriage return and a newline. Of a line that is passed on, or cited, control bytes are written as
// `\x1B`.
//
// What follows a read of standard input that fails is not answered, nor is the line that had begun; standard error has the reason, and
// the number of that line. Where standard output cannot be written, standard error says so. `--help` is answered by the usage; any
// other argument too, on standard error and with nothing on standard output.
#![tactic(auto)]

mod digits;
mod visible;

use crate::digits::{put_digits, read_hex};
use crate::visible::write_visible;
use arrayvec::ArrayVec;
use base::part::part;
use base::utf8::decode_into;
use console::program::{Body, Failure, Output, Program};
use console::room::PIECE;
use std::io;
use std::io::Read;

// The most characters of a line.
const LINE: usize = 1024;
// The room for them, for a carriage return behind them, and for one more, which shows that a line is longer.
const ROOM: usize = 1026;
// The bytes that they can stand for.
const BYTES: usize = 512;
// What these can decode to, where each becomes U+FFFD.
const DECODED: usize = 1536;
// That in hexadecimal, a blank before each byte.
const SHOWN: usize = 3 * DECODED;

const PROGRAM: Program = Program {
    name: "decode_text",
    usage: "usage: decode_text < lines\n\
          Reads texts from standard input, each a line of at most 1024 characters that has its bytes\n\
          in hexadecimal, and writes to standard output for each the number of bytes of its decoding\n\
          and these bytes, and how many U+FFFD were put in for what is ill-formed (`replaced`). Blank\n\
          lines and lines that start with # are passed on.\n\
          example: echo C0 AF 41 | decode_text\n",
    undone: "nothing was answered",
};

// Writes the decoding of a text.
fn answer(out: HostRuntime, text: &[u8]) -> io::Result<()> {
    let mut decoded = [0; DECODED];
    let mut replaced = 0;
    let n = decode_into(text, &mut decoded, 0, &mut replaced);
    let mut digits = [0; SHOWN];
    put_digits(part(&decoded, 0, n), &mut digits);
    print!(out; "{n}, replaced {replaced}:")?;
    out.write_all(part(&digits, 0, n.saturating_mul(3)))?;
    println!(out)
}

// Answers a line that has bytes.
fn answer_bytes(out: HostRuntime, line: &[u8], number: usize) -> io::Result<()> {
    let mut bytes = ArrayVec::<u8, BYTES>::new();
    match read_hex(line, &mut bytes) {
        Ok(()) => answer(out, bytes.as_slice()),
        Err(at) => {
            print!(out; "line {number}: no byte in hexadecimal at ")?;
            write_visible(out, at)?;
            println!(out)
        }
    }
}

// Answers a line.
fn answer_line(out: HostRuntime, line: &[u8], number: usize) -> io::Result<()> {
    if line.len() > LINE {
        return println!(out; "line {number}: more than {LINE} characters");
    }
    match line {
        [] | [b'#', ..] => {
            write_visible(out, line)?;
            println!(out)
        }
        _ => answer_bytes(out, line, number),
    }
}

// The input's lines, as far as it was read.
#[derive(Drop)]
struct Lines {
    // What there is of the present line. One that is too long is cut, and still is too long.
    line: ArrayVec<u8, ROOM>,
    // The present line's number.
    number: usize,
    output: Output,
}

impl Lines {
    fn new() -> Lines {
        Lines {
            line: ArrayVec::new(),
            number: 1,
            output: Output::new(PROGRAM),
        }
    }

    // Answers the present line, unless an earlier answer could not be written. A newline that ended it may stand behind a carriage
    // return, which is no character of the line then.
    fn answer(&mut self, out: HostRuntime, has_newline: bool) {
        if !self.output.is_complete() {
            return;
        }
        let line = self.line.as_slice();
        let line = match line {
            [before @ .., b'\r'] if has_newline => before,
            _ => line,
        };
        let written = answer_line(out, line, self.number);
        self.output.note(out, written);
    }

    // Takes some input.
    fn take(&mut self, out: HostRuntime, input: &[u8]) {
        for b in input {
            if *b == b'\n' {
                self.answer(out, true);
                self.line.clear();
                self.number = self.number.saturating_add(1);
            } else {
                // What has no room is left out.
                let _ = self.line.try_push(*b);
            }
        }
    }

    // What the end of the input leaves: the last line may have no end.
    fn end(&mut self, out: HostRuntime) {
        if !self.line.is_empty() {
            self.answer(out, false);
        }
    }
}

// Reads to the end of the input, or until a read fails. (A proved loop has to end, and nothing says that the input does: no run uses up
// so many turns.)
fn take_all(rt: HostRuntime, lines: &mut Lines) -> io::Result<()> {
    for _ in 0..u64::MAX {
        let mut input = [0; PIECE];
        match rt.stdin().read(&mut input)? {
            0 => break,
            n => lines.take(rt, &input[..n]),
        }
    }
    Ok(())
}

struct DecodeText;

impl Body for DecodeText {
    fn run(rt: HostRuntime) -> Result<(), Failure> {
        let mut lines = Lines::new();
        match take_all(rt, &mut lines) {
            Ok(()) => lines.end(rt),
            Err(error) => {
                PROGRAM.say_unread(rt, error);
                let number = lines.number;
                let _ = eprintln!(rt;
                    "decode_text: line {number} and what follows it are not answered"
                );
            }
        }
        lines.output.end(rt);
        Ok(())
    }
}

fn main(rt: HostRuntime) {
    PROGRAM.start::<DecodeText>(rt)
}
