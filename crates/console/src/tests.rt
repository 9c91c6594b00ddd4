// A program whose body holds something. No contract says that a body is run, so it is tried. All but `answer_with` is public, as for another crate.
use crate::argument::{Asked, arg_count};
use crate::program::{Failure, OwningBody, Program};
use std::marker::Model;

const PROGRAM: Program = Program {
    name: "tests",
    usage: "usage: tests\n",
    undone: "nothing is counted",
};

// A body that counts its runs.
#[derive(Drop)]
struct Counting<'a> {
    runs: &'a mut u32,
}

impl OwningBody for Counting<'_> {
    fn run(self, _rt: HostRuntime) -> Result<(), Failure> {
        *self.runs = self.runs.wrapping_add(1);
        Ok(())
    }
}

// A closure that may be called is a body as well: the invariant of `Callable` says that it may be. It says so through a trait, since no invariant can cite
// what is known of a closure.
trait Runs: Drop {
    ghost can_run: { Self → Type 0 };

    fn call(self, rt: HostRuntime) -> Result<(), Failure>
        requires { can_run self };
}

#[derive(Drop)]
struct Closure<F>(F);

impl<F: FnOnce(HostRuntime) -> Result<(), Failure> + Drop> Runs for Closure<F> {
    ghost can_run = { λ c. F.IsAlwaysCallable c.0 };

    fn call(self, rt: HostRuntime) -> Result<(), Failure> {
        (self.0)(rt)
    }
}

#[derive(Drop)]
struct Callable<R: Runs> {
    body: R,
}

impl<R: Runs> Model for Callable<R> {
    ghost Value = { R };

    ghost view = { λ c. c.body };

    ghost invariant = { λ c. R.can_run c.body };
}

impl<R: Runs> OwningBody for Callable<R> {
    fn run(self, rt: HostRuntime) -> Result<(), Failure> {
        self.body.call(rt)
    }
}

fn start_known<R: Runs>(program: Program, rt: HostRuntime, body: R)
    requires { R.can_run body }
{
    program.start_with(rt, Callable { body })
}

fn run_known<R: Runs>(program: Program, rt: HostRuntime, body: R)
    requires { R.can_run body }
{
    program.run_with(rt, Callable { body })
}

// A program by a closure.
fn start<F: FnOnce(HostRuntime) -> Result<(), Failure> + Drop>(
    program: Program,
    rt: HostRuntime,
    body: F,
)
    requires { F.IsAlwaysCallable body }
{
    start_known(program, rt, Closure(body))
}

fn run<F: FnOnce(HostRuntime) -> Result<(), Failure> + Drop>(
    program: Program,
    rt: HostRuntime,
    body: F,
)
    requires { F.IsAlwaysCallable body }
{
    run_known(program, rt, Closure(body))
}

// How often a body is run where the arguments ask for `asked`.
fn runs_at(rt: HostRuntime, asked: Asked) -> u32 {
    let mut runs = 0;
    PROGRAM.answer_with(rt, asked, Counting { runs: &mut runs });
    runs
}

#[test]
fn a_body_is_run_where_nothing_is_asked(rt: HostRuntime) {
    assert_eq!(rt; runs_at(rt, Asked::Nothing), 1);
    assert_eq!(rt; runs_at(rt, Asked::Help), 0);
    assert_eq!(rt; runs_at(rt, Asked::Other), 0);
}

#[test]
fn a_body_is_run_once(rt: HostRuntime) {
    let mut runs = 0;
    PROGRAM.run_with(rt, Counting { runs: &mut runs });
    assert_eq!(rt; runs, 1);
}

// How often `start_with` runs a body: once where there is no argument. (A test has one, its name, so none is started here.)
fn starts(rt: HostRuntime) -> u32 {
    u32::from(arg_count(rt) < 2)
}

#[test]
fn a_body_is_not_started_with_an_argument(rt: HostRuntime) {
    let mut runs = 0;
    PROGRAM.start_with(rt, Counting { runs: &mut runs });
    assert_eq!(rt; runs, starts(rt));
}

#[test]
fn a_closure_is_not_started_with_an_argument(rt: HostRuntime) {
    let mut runs: u32 = 0;
    start(PROGRAM, rt, |_rt: HostRuntime| -> Result<(), Failure> {
        runs = runs.wrapping_add(1);
        Ok(())
    });
    assert_eq!(rt; runs, starts(rt));
}

#[test]
fn a_closure_is_run_once(rt: HostRuntime) {
    let mut runs: u32 = 0;
    run(PROGRAM, rt, |_rt: HostRuntime| -> Result<(), Failure> {
        runs = runs.wrapping_add(1);
        Ok(())
    });
    assert_eq!(rt; runs, 1);
}
