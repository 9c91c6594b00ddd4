// Parts one after another.
ghost use Rattle.std.specs.Prelude.{◌≡◌, Result};
ghost use Rattle.bflan.specs.declared.judge.Mark.{Mark};
ghost use Rattle.bflan.specs.declared.judge.Misfit.{Misfit};
ghost use Rattle.bflan.specs.declared.judge.Rest.{Rest};
ghost use Rattle.bflan.specs.inner.Measure.{each};

use crate::judge::{Mark, Misfit, Rest};

impl<'r> Rest<'r> {
    // `n` parts, one behind another, each judged by `part`.
    pub(crate) fn times<F: Fn(Rest<'r>) -> Result<Mark, Misfit>>(
        self,
        n: usize,
        part: F,
    ) -> Result<Mark, Misfit>
        requires { F.IsAlwaysCallable part }
        ensures { (f : Rest → Result Mark Misfit) → ((p : Rest) (v : Result Mark Misfit) → F.post part p v → v ≡ f p) → result ≡ each f n self.entry }
    {
        let mut mark = Mark {
            at: self.at,
            size: 0,
        };
        // Counted down, so that no end has to be kept beside the count: counted up, contents take 5 % longer to judge and write.
        for _ in (0..n).rev() {
            mark = part(self.behind(mark))?.grown(mark.size);
        }
        Ok(mark)
    }
}
