// Data of a FLEU info: five words, values, and a key text.
ghost use Rattle.std.specs.Prelude.{◌≡◌, ◌+◌, ◌≤◌};
ghost use Rattle.bflan.specs.pai1.Judge.{datum};
ghost use Rattle.bflan.specs.Judge.{times};
ghost use Rattle.bflan.specs.Layout.{number, size, parts, ended};
ghost use Rattle.bflan.specs.pai1.Layout.{datum_lay};
ghost use Rattle.bflan.specs.inner.Measure.{verdict_of, next, measured};
ghost use Rattle.bflan.specs.inner.JudgeParts.{values_and_key};

use crate::judge::run::run;
use crate::judge::{Mark, Misfit, Rest};

impl Rest<'_> {
    // `n` values, and the key text behind them.
    fn values_and_key(self, n: usize) -> Result<Mark, Misfit>
        requires { n ≤ 17179869184 }
        ensures { result ≡ verdict_of (λ b. size (parts (number 4) b.values) + size (ended b.key)) (next (values_and_key n) self.entry) }
    {
        let values = run(self.words, self.at, n)?;
        let key = self.behind(values).ended()?;
        Ok(key.grown(values.size))
    }

    fn datum(self) -> Result<Mark, Misfit>
        ensures { result ≡ measured datum_lay datum self.entry }
    {
        self.word_below(0, 4294967296)?;
        self.word_below(1, 65536)?;
        self.word_below(2, 65536)?;
        let base = self.word_below(3, 4294967296)?;
        self.word_below(4, 4294967296)?;
        let rest = self.past(5).values_and_key(3 * (base as usize))?;
        Ok(rest.grown(20))
    }

    // `n` data.
    pub(crate) fn data(self, n: usize) -> Result<Mark, Misfit>
        ensures { result ≡ measured (parts datum_lay) (times n datum) self.entry }
    {
        self.times(n, |part| part.datum())
    }
}
