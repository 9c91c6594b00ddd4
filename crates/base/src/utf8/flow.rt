// The automaton that checks a run of bytes with one shift a byte.
ghost use Rattle.std.specs.Prelude.{◌≡◌, ◌≤◌, length};
ghost use Rattle.base.specs.Utf8.{Classes};
ghost use Rattle.base.specs.inner.Flow.{state_after, state_of, State, Rows, Flow};

use crate::utf8::class::ClassTable;

// For each class of a byte the states behind it, six bits for each state before it. A state is held as six times its number, so that it is
// the shift.
// Kept: a state is a number and no enum, here and in scan.rt, since it is the shift.
pub(crate) const ROWS: [u64; 16] = [
    1715657000903046,
    1715657000903040,
    1715657000903052,
    1715657000903064,
    1715657000903058,
    1715657000903070,
    1715657000903058,
    1715657000903076,
    1715657000903082,
    1715657000903088,
    5146139723563398,
    1769264636756358,
    1769258294968710,
    0,
    0,
    0,
];

// The automaton: both tables, of which each step needs one entry.
#[derive(Clone, Copy)]
pub(crate) struct Automaton<'a> {
    pub(crate) classes: ClassTable<'a>,
    rows: &'a [u64; 16],
    ghost hold: { Rows rows.now },
}

impl<'a> Automaton<'a> {
    pub(crate) fn new(classes: &'a [u8; 256], rows: &'a [u64; 16]) -> Automaton<'a>
        requires { Classes classes.now × Rows rows.now }
    {
        Automaton {
            classes: ClassTable::new(classes),
            rows,
        }
    }

    // The state behind a byte. The bits above the lowest six are left as they are: the next shift takes no notice of them.
    #[tactic(auto, using(crate::proofs::utf8::Automaton::next_held, crate::proofs::utf8::Steps::byte_below))]
    pub(crate) fn next_state(self, state: u64, b: u8) -> u64
        requires { State state }
        ensures { State result × (state_of result ≡ state_after (state_of state) b) }
    {
        let c = self.classes.class(b);
        self.rows[usize::from(c)] >> (state % 64)
    }

    // The state behind the bytes from `from` to `stop`.
    pub(crate) fn flow_over(self, s: &[u8], from: usize, stop: usize, state: u64) -> u64
        requires { (from ≤ stop) × (stop ≤ length s.now) × State state }
        ensures { Flow s.now from state stop result }
    {
        let mut q = state;
        for j in from..stop {
            q = self.next_state(q, s[j]);
        }
        q
    }
}
