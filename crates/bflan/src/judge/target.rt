// Targets: four words and keys.
ghost use Rattle.std.specs.Prelude.{◌≡◌};
ghost use Rattle.bflan.specs.pai1.Judge.{target};
ghost use Rattle.bflan.specs.Judge.{times};
ghost use Rattle.bflan.specs.Layout.{parts};
ghost use Rattle.bflan.specs.pai1.Layout.{target_lay};
ghost use Rattle.bflan.specs.inner.Measure.{measured};

use crate::judge::run::keys;
use crate::judge::{Mark, Misfit, Rest};

impl Rest<'_> {
    fn target(self, letters: u32) -> Result<Mark, Misfit>
        ensures { result ≡ measured target_lay (target letters) self.entry }
    {
        self.word_below(0, 256)?;
        self.past(1).target_at(letters)?;
        let curve = self.past(2).curve_at()?;
        let n = self.word_below(3, 65536)?;
        let rest = keys(self.words, self.past(4).at, curve, n as usize)?;
        Ok(rest.grown(12))
    }

    // `n` targets.
    pub(crate) fn targets(self, letters: u32, n: usize) -> Result<Mark, Misfit>
        ensures { result ≡ measured (parts target_lay) (times n (target letters)) self.entry }
    {
        self.times(n, move |part| part.target(letters))
    }
}
