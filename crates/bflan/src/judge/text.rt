// Texts: a length among the words, and bytes.
ghost use Rattle.std.specs.Prelude.{◌≡◌, leb, length};
ghost use Rattle.bflan.specs.Judge.{next_chars, next_text, times, wide};
ghost use Rattle.bflan.specs.Layout.{parts, ended};
ghost use Rattle.bflan.specs.inner.Measure.{verdict_of, next, measured};

use crate::judge::{Mark, Misfit, Position, Rest};
use base::text::first_fault;

impl Rest<'_> {
    // The `n` bytes of a text.
    #[tactic(auto, using(crate::proofs::judge::JudgeParts::chars_missing, crate::proofs::judge::JudgeParts::chars_fault, crate::proofs::judge::JudgeParts::chars_fine))]
    fn chars(self, n: usize) -> Result<Mark, Misfit>
        ensures { result ≡ verdict_of length (next (next_chars n) self.entry) }
    {
        let len = self.texts.len();
        let from = self.at.byte;
        if len < from {
            return Err(Misfit::Text(len));
        }
        if len - from < n {
            return Err(Misfit::Text(len));
        }
        let end = from + n;
        let fault = first_fault(&self.texts[from..end]);
        if fault < n {
            return Err(Misfit::Text(from + fault));
        }
        let behind = Position {
            byte: end,
            ..self.at
        };
        Ok(Mark {
            at: behind,
            size: n,
        })
    }

    // A content's name.
    pub(crate) fn name(self) -> Result<Mark, Misfit>
        ensures { result ≡ verdict_of length (next (next_text (λ n. leb n 28)) self.entry) }
    {
        let n = self.word_below(0, 29)?;
        self.past(1).chars(n as usize)
    }

    // A text that ends at a zero in the section.
    pub(crate) fn ended(self) -> Result<Mark, Misfit>
        ensures { result ≡ measured ended (next_text (wide 4)) self.entry }
    {
        let n = self.word_below(0, 4294967296)?;
        let text = self.past(1).chars(n as usize)?;
        Ok(text.grown(1))
    }

    // `n` texture names.
    pub(crate) fn textures(self, n: usize) -> Result<Mark, Misfit>
        ensures { result ≡ measured (parts ended) (times n (next_text (wide 4))) self.entry }
    {
        self.times(n, |part| part.ended())
    }
}
