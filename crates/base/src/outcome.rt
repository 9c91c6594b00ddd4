// An answer as numbers.
ghost use Rattle.std.specs.Prelude.{◌≡◌};
ghost use Rattle.base.specs.Outcome.{Outcome, flat, in_order, outcome_of, of_count};

// The number that document 01 gives to an answer, and its values, with zeros behind them. (Of a field's values there are up to three, and
// before them stands how many.)
#[derive(Clone, Copy, PartialEq, Eq)]
pub struct Numbers(pub usize, pub usize, pub usize, pub usize, pub usize);

// What a call answers, accepted or refused: it has a number and values in document 01.
pub trait Answer {
    ghost outcome: { Self → Outcome };

    fn numbers(self) -> Numbers
        ensures { in_order result ≡ flat 5 (outcome self) };
}

// A call that can be refused: its answer is the value's, or the error's.
impl<T: Answer, E: Answer> Answer for Result<T, E> {
    ghost outcome = { outcome_of T.outcome E.outcome };

    fn numbers(self) -> Numbers {
        match self {
            Ok(value) => value.numbers(),
            Err(error) => error.numbers(),
        }
    }
}

// A length or a count, accepted.
impl Answer for usize {
    ghost outcome = { of_count };

    #[tactic(auto, unfolding(crate::specs::Outcome::flat))]
    fn numbers(self) -> Numbers {
        Numbers(0, self, 0, 0, 0)
    }
}
