// Infos: letters, a count, and then targets or extended data.
ghost use Rattle.std.specs.Prelude.{◌≡◌};
ghost use Rattle.bflan.specs.pai1.Judge.{info};
ghost use Rattle.bflan.specs.Judge.{times};
ghost use Rattle.bflan.specs.Layout.{parts};
ghost use Rattle.bflan.specs.pai1.Layout.{info_lay};
ghost use Rattle.bflan.specs.inner.Measure.{measured};

use crate::judge::{Mark, Misfit, Rest};
use crate::letters::FLEU;

impl Rest<'_> {
    fn info(self) -> Result<Mark, Misfit>
        ensures { result ≡ measured info_lay info self.entry }
    {
        let letters = self.letters_at()?;
        let n = self.word_below(1, 256)? as usize;
        if letters == FLEU {
            let rest = self.past(2).data(n)?;
            return Ok(rest.grown(8));
        }
        let rest = self.past(2).targets(letters, n)?;
        Ok(rest.grown(8 + 4 * n))
    }

    // `n` infos.
    pub(crate) fn infos(self, n: usize) -> Result<Mark, Misfit>
        ensures { result ≡ measured (parts info_lay) (times n info) self.entry }
    {
        self.times(n, |part| part.info())
    }
}
