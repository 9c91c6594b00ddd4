// The pai1 section: read into a flat record, and written from one.
#![tactic(auto)]

pub mod curve;
pub mod fault;
pub mod find;
mod judge;
pub mod letters;
pub mod place;
pub mod read;
mod reader;
mod section;
pub mod write;
mod writer;
