// The arguments of a run: the names of changes or places, with numbers behind them.
use console::argument::{arg, arg_count};
use std::fmt;
use std::ops::Range;

// What is no change or no place, by the place among the arguments.
#[derive(Clone, Copy)]
pub(crate) enum Misuse {
    NoName(usize),
    TooFewNumbers(usize),
    NoNumber(usize),
}

// What is wrong, where the arguments say things of a kind: changes or places.
#[derive(Clone, Copy)]
pub(crate) struct Complaint(pub(crate) Misuse, pub(crate) &'static str);

impl fmt::Display for Complaint {
    fn fmt<W: fmt::Write>(&self, f: &mut fmt::Formatter<W>) -> fmt::Result {
        let Complaint(misuse, kind) = *self;
        match misuse {
            Misuse::NoName(i) => write!(f, "argument {i} is no name of a {kind}"),
            Misuse::TooFewNumbers(i) => {
                write!(f, "argument {i} is a {kind} with too few numbers behind it")
            }
            Misuse::NoNumber(i) => { write!(f, "argument {i} is no number from 0 to {}", u32::MAX) }
        }
    }
}

// A number: decimal, or hexadecimal behind `0x`. (A `+` before it, which std takes, is none of its digits.)
fn number(text: &str) -> Option<u32> {
    let (digits, radix) = match text.strip_prefix("0x") {
        Some(digits) => (digits, 16),
        None => (text, 10),
    };
    if digits.starts_with('+') {
        return None;
    }
    u32::from_str_radix(digits, radix).ok()
}

// The arguments that are still to come.
#[derive(Drop)]
pub(crate) struct Arguments<'r> {
    rt: HostRuntime,
    places: Range<usize>,
    // Where the text of an argument is put. Kept: one room for all of them. A room for each takes as much again of the stack, and is filled with
    // zeros each time.
    room: &'r mut [u8],
}

impl<'r> Arguments<'r> {
    // Those from a place on.
    pub(crate) fn behind(rt: HostRuntime, first: usize, room: &'r mut [u8]) -> Arguments<'r> {
        Arguments {
            rt,
            places: first..arg_count(rt),
            room,
        }
    }

    // The place of the next one.
    pub(crate) fn next(&mut self) -> Option<usize> {
        self.places.next()
    }

    // The name at `i`: no text where there is none, or it has no room.
    pub(crate) fn name(&mut self, i: usize) -> &str {
        arg(self.rt, i, self.room).unwrap_or("")
    }

    // The numbers behind the name at `i`.
    pub(crate) fn numbers<const N: usize>(&mut self, i: usize) -> Result<[u32; N], Misuse> {
        if self.places.len() < N {
            return Err(Misuse::TooFewNumbers(i));
        }
        let mut numbers = [0; N];
        for n in numbers.iter_mut() {
            let at = self.places.next().unwrap_or(i);
            *n = arg(self.rt, at, self.room)
                .and_then(number)
                .ok_or(Misuse::NoNumber(at))?;
        }
        Ok(numbers)
    }
}
