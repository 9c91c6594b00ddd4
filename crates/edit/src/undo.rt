// Taking back the last edit.
ghost use Rattle.std.specs.Prelude.{◌≡◌, true, length};
ghost use Rattle.edit.specs.Editing.{of_undo_error, of_undoing, restored, undoing};
ghost use Rattle.edit.specs.Journal.{restorable};
ghost use Rattle.edit.specs.inner.Packing.{entry_list};

use crate::journal::{ENTRY_WORDS, Entry, entry_at, filled, put_packed};
use base::outcome::{Answer, Numbers};
use bflan::read::LIMIT;

// Why nothing is undone.
#[derive(Clone, Copy)]
pub enum UndoError {
    // The section's length, above the limit.
    TooLong(usize),
    NothingToUndo,
    // The count of journal entries, which the journal does not bear out.
    BadJournal(usize),
}

impl Answer for UndoError {
    ghost outcome = { of_undo_error };

    #[tactic(auto, unfolding(base::specs::Outcome::flat))]
    fn numbers(self) -> Numbers {
        match self {
            UndoError::TooLong(size) => Numbers(2, size, 0, 0, 0),
            UndoError::NothingToUndo => Numbers(13, 0, 0, 0, 0),
            UndoError::BadJournal(count) => Numbers(14, count, 0, 0, 0),
        }
    }
}

// Whether an entry can be undone in a section of `size` bytes.
#[tactic(auto, unfolding(crate::specs::Journal::restorable, crate::specs::Journal::bytes_in, crate::specs::inner::Packing::entry_list, crate::specs::inner::Packing::unpacked))]
fn restorable(e: Entry, size: usize) -> bool
    ensures { result ≡ restorable size (entry_list e) }
{
    let n = e.count;
    let old = e.old;
    if filled(n, old) {
        return (e.at as usize) + (n as usize) <= size;
    }
    false
}

#[tactic(auto, using(crate::proofs::Calls::restorable_size, crate::proofs::Calls::restorable_inside), unfolding(crate::specs::Editing::restored, crate::specs::Journal::restorable, crate::specs::Journal::bytes_in, crate::specs::inner::Packing::entry_list, crate::specs::inner::Packing::unpacked))]
fn restore(section: &mut [u8], e: Entry)
    requires { restorable (length section.old) (entry_list e) ≡ true }
    ensures { section.new ≡ restored section.old (entry_list e) }
{
    let at = e.at as usize;
    let n = e.count;
    let old = e.old;
    put_packed(section, at, n, old);
}

// Takes the last edit back, and answers the new count of journal entries.
#[tactic(auto, unfolding(crate::specs::Editing::undoing, crate::specs::Journal::capacity))]
pub fn undo(section: &mut [u8], journal: &[u32], count: usize) -> Result<usize, UndoError>
    ensures { (of_undoing result, section.new) ≡ undoing section.old journal.now count }
{
    let size = section.len();
    if LIMIT < size {
        return Err(UndoError::TooLong(size));
    }
    if count == 0 {
        return Err(UndoError::NothingToUndo);
    }
    if journal.len() / ENTRY_WORDS < count {
        return Err(UndoError::BadJournal(count));
    }
    let last = count - 1;
    let e = entry_at(journal, last);
    if restorable(e, size) {
        restore(section, e);
        return Ok(last);
    }
    Err(UndoError::BadJournal(count))
}
