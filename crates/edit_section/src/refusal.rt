// Document 01's refusals of a change and of a place: the number, its values, and a sentence.
use base::outcome::{Answer, Numbers};
use console::refusal::{Refused, Why};
use edit::edit::EditError;
use edit::undo::UndoError;
use std::fmt;

#[derive(Clone, Copy)]
pub(crate) enum Refusal {
    // Of a change, or of a place that is to be shown.
    Edit(EditError),
    Undo(UndoError),
}

impl Refusal {
    // The number, with the values behind it.
    fn numbers(self) -> Numbers {
        match self {
            Refusal::Edit(error) => error.numbers(),
            Refusal::Undo(error) => error.numbers(),
        }
    }
}

// A refusal of what stands at an argument.
#[derive(Clone, Copy)]
pub(crate) struct RefusedAt(pub(crate) usize, pub(crate) Refusal);

impl fmt::Display for RefusedAt {
    fn fmt<W: fmt::Write>(&self, f: &mut fmt::Formatter<W>) -> fmt::Result {
        let RefusedAt(i, refusal) = *self;
        let Numbers(n, value, ..) = refusal.numbers();
        match refusal {
            Refusal::Edit(EditError::TooLong(_)) | Refusal::Undo(UndoError::TooLong(_)) => {
                write!(
                    f,
                    "refused {n} ({value}) at argument {i}: the section is too long"
                )
            }
            Refusal::Edit(EditError::Fault(fault)) => {
                write!(f, "{} at argument {i}{}", Refused(fault), Why(fault))
            }
            Refusal::Edit(EditError::NoSuchPlace) => {
                write!(
                    f,
                    "refused {n} at argument {i}: the section has no such place"
                )
            }
            Refusal::Edit(EditError::Unfit) => {
                write!(
                    f,
                    "refused {n} at argument {i}: the new value does not fit there"
                )
            }
            Refusal::Edit(EditError::JournalFull(_)) => write!(
                f,
                "refused {n} ({value}) at argument {i}: the journal has no room for one more change"
            ),
            Refusal::Undo(UndoError::NothingToUndo) => {
                write!(
                    f,
                    "refused {n} at argument {i}: there is no change to take back"
                )
            }
            Refusal::Undo(UndoError::BadJournal(_)) => {
                write!(
                    f,
                    "refused {n} ({value}) at argument {i}: the journal is damaged"
                )
            }
        }
    }
}
