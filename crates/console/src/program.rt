// How a program starts and ends. No contract of std says what is written, or whether it was, so the functions that write have none.
//
// No write is lost in silence. One that fails is said on standard error with the system's reason, and nothing more is written: what is
// already written stays the beginning of the output. When the program ends, it says that the output is not complete.
ghost use Rattle.std.specs.Prelude.{◌≡◌, ◌&&◌, Ok, is_ok};
ghost use Rattle.console.specs.declared.program.Failure.TheVariants.{Output};

use crate::argument::{Asked, arguments};
use crate::reason::Reason;
use std::io;

// The system's number for a stream that is not open (Linux).
const NOT_OPEN: i32 = 9;

// Why a program ended before its end.
#[derive(Clone, Copy)]
pub enum Failure {
    // Standard input could not be read.
    Input(io::Error),
    // Standard output could not be written.
    Output(io::Error),
}

impl From<io::Error> for Failure {
    ghost from_gives = { λ error failure. failure ≡ Output error };

    fn from(error: io::Error) -> Failure {
        Self::Output(error)
    }
}

// What a program does, once it has been started. Kept: a trait, and no closure: who calls a closure has to know that it may be called, so `start` and
// `run` would ask that of their callers, and no function that another crate can call asks anything.
pub trait Body {
    fn run(rt: HostRuntime) -> Result<(), Failure>;
}

// The same for a body that holds something, as a closure holds what it captures. A run uses it up.
pub trait OwningBody {
    fn run(self, rt: HostRuntime) -> Result<(), Failure>;
}

// What a program says of itself.
#[derive(Clone, Copy)]
pub struct Program {
    pub name: &'static str,
    pub usage: &'static str,
    // What it has not done where it can neither read nor write.
    pub undone: &'static str,
}

impl Program {
    // Runs a program that takes no argument. `--help` is answered by the usage; any other argument too, on standard error.
    pub fn start<B: Body>(self, rt: HostRuntime) {
        match arguments(rt) {
            Asked::Nothing => self.run::<B>(rt),
            Asked::Help => self.help(rt),
            Asked::Other => self.say_misused(rt),
        }
    }

    // The same for a body that holds something.
    pub fn start_with<B: OwningBody + Drop>(self, rt: HostRuntime, body: B) {
        self.answer_with(rt, arguments(rt), body)
    }

    // Does what the arguments ask. Kept: on its own. A test has an argument, its name, so `start_with` runs no body there.
    pub(crate) fn answer_with<B: OwningBody + Drop>(self, rt: HostRuntime, asked: Asked, body: B) {
        match asked {
            Asked::Nothing => self.run_with(rt, body),
            Asked::Help => self.help(rt),
            Asked::Other => self.say_misused(rt),
        }
    }

    // Runs a program, once standard output has taken a write of no bytes.
    pub fn run<B: Body>(self, rt: HostRuntime) {
        match rt.write_some(b"") {
            Err(error) => self.say_undone(rt, "standard output could not be written", error),
            Ok(_) => {
                if let Err(failure) = B::run(rt) {
                    self.say_failure(rt, failure);
                }
            }
        }
    }

    // The same for a body that holds something. Kept: a text of its own. If it shared one with `run`, the programs' compiled code would no longer be the
    // code that was measured.
    pub fn run_with<B: OwningBody + Drop>(self, rt: HostRuntime, body: B) {
        match rt.write_some(b"") {
            Err(error) => self.say_undone(rt, "standard output could not be written", error),
            Ok(_) => {
                if let Err(failure) = body.run(rt) {
                    self.say_failure(rt, failure);
                }
            }
        }
    }

    // Says that a program takes no argument, and the usage.
    fn say_misused(self, rt: HostRuntime) {
        let Program { name, usage, .. } = self;
        let _ = eprint!(rt; "{name} takes no argument\n{usage}");
    }

    // Writes the usage.
    pub fn help(self, rt: HostRuntime) {
        if let Err(error) = rt.print(self.usage) {
            self.say_failure(rt, Failure::Output(error));
        }
    }

    // Says what is not done, and why. (Where standard error takes nothing, nothing can be said.)
    fn say_undone(self, rt: HostRuntime, why: &str, error: io::Error) {
        let Program { name, undone, .. } = self;
        let _ = eprintln!(rt; "{name}: {undone}, since {why}: {}", Reason(error));
    }

    // Says why a program ended early.
    pub fn say_failure(self, rt: HostRuntime, failure: Failure) {
        match failure {
            Failure::Input(error) => {
                self.say_undone(rt, "standard input could not be read", error)
            }
            Failure::Output(error) => {
                self.say_unwritten(rt, error);
                self.say_incomplete(rt);
            }
        }
    }

    // Says why a write failed. Of an output that was not open there is no reason to say.
    fn say_unwritten(self, rt: HostRuntime, error: io::Error) {
        if error.raw_os_error() != Some(NOT_OPEN) {
            let _ = eprintln!(rt; "standard output could not be written: {}", Reason(error));
        }
    }

    // Says, at the end, that a write failed.
    fn say_incomplete(self, rt: HostRuntime) {
        let name = self.name;
        let _ = eprintln!(rt; "{name}: the output is not complete");
    }

    // Says why no more is read.
    pub fn say_unread(self, rt: HostRuntime, error: io::Error) {
        let name = self.name;
        let _ = eprintln!(rt;
            "{name}: standard input could not be read: {}",
            Reason(error)
        );
    }
}

// Standard output of a program that goes on behind a write that failed. Nothing more is written then.
#[derive(Clone, Copy)]
pub struct Output {
    program: Program,
    // What became of the writes: the first failure, if there is one.
    written: io::Result<()>,
}

impl Output {
    pub fn new(program: Program) -> Output
        ensures { result ≡ record { program = program; written = Ok tt } }
    {
        Output {
            program,
            written: Ok(()),
        }
    }

    // Whether each write so far was done.
    pub fn is_complete(self) -> bool
        ensures { result ≡ is_ok self.written }
    {
        self.written.is_ok()
    }

    // Takes what became of a write. Why one failed is said at once.
    pub fn note(&mut self, rt: HostRuntime, written: io::Result<()>)
        ensures { is_ok self.new.written ≡ (is_ok self.old.written && is_ok written) }
    {
        if let Err(error) = written {
            self.program.say_unwritten(rt, error);
        }
        self.written = self.written.and(written);
    }

    // Says, when the program ends, that a write failed.
    pub fn end(self, rt: HostRuntime) {
        if self.written.is_err() {
            self.program.say_incomplete(rt);
        }
    }
}
