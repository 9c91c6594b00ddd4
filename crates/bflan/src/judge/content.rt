// Contents: a name, a type, a count, and infos.
ghost use Rattle.std.specs.Prelude.{◌≡◌, List, ℕ, ◌≤◌, length};
ghost use Rattle.bflan.specs.pai1.Judge.{content};
ghost use Rattle.bflan.specs.Judge.{times};
ghost use Rattle.bflan.specs.Layout.{parts};
ghost use Rattle.bflan.specs.pai1.Layout.{table_from, content_lay};
ghost use Rattle.bflan.specs.inner.Measure.{measured};
ghost use Rattle.bflan.specs.inner.JudgeParts.{after_name};

use crate::judge::{Mark, Misfit, Rest};
use crate::reader::content::USER;

// Where a content's info table stands in it.
#[tactic(auto, unfolding(crate::specs::pai1::Layout::table_from))]
pub(crate) fn table_from(kind: u32) -> usize
    ensures { result ≡ table_from kind }
{
    if kind == USER {
        return 40;
    }
    32
}

impl Rest<'_> {
    // What is behind a content's name.
    fn named(self) -> Result<Mark, Misfit>
        ensures { (name : List ℕ) → length name ≤ 28 → result ≡ measured content_lay (after_name name) self.entry }
    {
        let kind = self.word_below(0, 5)?;
        let n = self.word_below(1, 256)? as usize;
        let head = table_from(kind) + 4 * n;
        let rest = self.past(2).infos(n)?;
        Ok(rest.grown(head).padded())
    }

    fn content(self) -> Result<Mark, Misfit>
        ensures { result ≡ measured content_lay content self.entry }
    {
        let name = self.name()?;
        self.behind(name).named()
    }

    // `n` contents.
    pub(crate) fn contents(self, n: usize) -> Result<Mark, Misfit>
        ensures { result ≡ measured (parts content_lay) (times n content) self.entry }
    {
        self.times(n, |part| part.content())
    }
}
