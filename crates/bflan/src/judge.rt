// Judging a record's words and texts, and measuring the section that they make.
ghost use Rattle.std.specs.Prelude.{◌≡◌, ℕ, ◌+◌, ◌*◌, ◌<◌};
ghost use Rattle.bflan.specs.Judge.{ends};
ghost use Rattle.bflan.specs.pai1.Judge.{pane, section};
ghost use Rattle.bflan.specs.Layout.{size};
ghost use Rattle.bflan.specs.pai1.Layout.{section_lay};
ghost use Rattle.bflan.specs.inner.Measure.{verdict_of, next, measured, filled_up, mark_grown, mark_padded, past, behind};
ghost use Rattle.bflan.specs.inner.JudgeParts.{after_head};
ghost use Rattle.bflan.specs.pai1.Record.{PaneAnimInfo};
ghost use Rattle.bflan.specs.inner.Walk.{sat};

use base::fill::padding;

mod content;
mod datum;
mod info;
mod run;
mod target;
mod text;
mod times;
pub mod word;

// A place in a record: the next word, and the next text byte.
#[derive(Clone, Copy)]
pub struct Position {
    pub word: usize,
    pub byte: usize,
}

// A record from a place on, which is judged part by part.
#[derive(Clone, Copy)]
pub struct Rest<'r> {
    pub words: &'r [u32],
    pub texts: &'r [u8],
    pub at: Position,
}

impl<'r> Rest<'r> {
    // Behind its next `n` words.
    fn past(self, n: usize) -> Rest<'r>
        requires { self.at.word + n < 18446744073709551616 }
        ensures { result ≡ past n self.entry }
    {
        let at = Position {
            word: self.at.word + n,
            ..self.at
        };
        Rest { at, ..self }
    }

    // Behind a part.
    fn behind(self, part: Mark) -> Rest<'r>
        ensures { result ≡ behind part self.entry }
    {
        Rest {
            at: part.at,
            ..self
        }
    }
}

// Where the walk stands behind a part that is within the limits, and the bytes that the part has in the section. A size that a usize does not
// hold is the largest one.
#[derive(Clone, Copy)]
pub struct Mark {
    pub at: Position,
    pub size: usize,
}

impl Mark {
    // With `n` bytes more.
    pub(crate) fn grown(self, n: usize) -> Mark
        ensures { result ≡ mark_grown n self }
    {
        Mark {
            size: n.saturating_add(self.size),
            ..self
        }
    }

    // With zeros up to a multiple of 4.
    pub(crate) fn padded(self) -> Mark
        ensures { result ≡ mark_padded self }
    {
        Mark {
            size: up_to_four(self.size),
            ..self
        }
    }
}

// Why a record is refused.
#[derive(Clone, Copy)]
pub enum Misfit {
    // The index of a word that is missing, out of range or over.
    Word(usize),
    // Where a text's fault stands.
    Text(usize),
}

// A size with its zeros up to a multiple of 4.
#[tactic(auto, unfolding(crate::specs::inner::Measure::filled_up))]
fn up_to_four(n: usize) -> usize
    ensures { result ≡ sat (filled_up n) }
{
    n.saturating_add(padding(n))
}

// Where the content table stands behind `n` texture names of `size` bytes.
fn table_behind(n: usize, size: usize) -> usize
    requires { n < 65536 }
    ensures { result ≡ sat (filled_up (20 + (4 * n + size))) }
{
    up_to_four((20 + 4 * n).saturating_add(size))
}

impl Rest<'_> {
    // That no word and then no text byte is over.
    fn ends(self) -> Result<Mark, Misfit>
        ensures { result ≡ verdict_of (λ z. 0) (next ends self.entry) }
    {
        if self.at.word < self.words.len() {
            return Err(Misfit::Word(self.at.word));
        }
        if self.at.byte < self.texts.len() {
            return Err(Misfit::Text(self.at.byte));
        }
        Ok(Mark {
            at: self.at,
            size: 0,
        })
    }

    // What is behind a record's first four words: `nt` texture names and `nc` contents.
    // Inlined: without that a mixture of parts takes 6 % longer to write.
    #[inline(always)]
    fn headed(self, nt: usize, nc: usize) -> Result<Mark, Misfit>
        requires { (nt < 65536) × (nc < 65536) }
        ensures { (frames looping : ℕ) → result ≡ measured section_lay (after_head frames looping nt nc) self.entry }
    {
        let names = self.textures(nt)?;
        let table = table_behind(nt, names.size);
        let rest = self.behind(names).contents(nc)?;
        Ok(rest.grown(table.saturating_add(4 * nc)))
    }

    // The record that is next, whatever follows.
    fn pane(self) -> Result<Mark, Misfit>
        ensures { result ≡ measured section_lay pane self.entry }
    {
        self.word_below(0, 65536)?;
        self.word_below(1, 2)?;
        let nt = self.word_below(2, 65536)?;
        let nc = self.word_below(3, 65536)?;
        self.past(4).headed(nt as usize, nc as usize)
    }
}

// The section that all the words and texts make.
pub(crate) fn judge_section(words: &[u32], texts: &[u8]) -> Result<Mark, Misfit>
    ensures { result ≡ verdict_of (λ (a : PaneAnimInfo). size (section_lay a)) (section words.now texts.now 0 0) }
{
    let all = Rest {
        words,
        texts,
        at: Position { word: 0, byte: 0 },
    };
    let info = all.pane()?;
    let end = all.behind(info).ends()?;
    Ok(end.grown(info.size))
}
