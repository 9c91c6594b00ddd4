// Edits of a finished section in place, with a journal, and their undoing.
#![tactic(auto)]

pub mod edit;
pub mod field;
mod journal;
pub mod key;
mod spot;
pub mod undo;
mod values;
