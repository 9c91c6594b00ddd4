// The walk over a section that reads it: measuring, filling tables and finding a text are the same walk.
pub mod content;
pub mod datum;
pub mod emit;
pub mod info;
pub mod keys;
pub mod offset;
pub mod row;
pub mod section;
pub mod table;
pub mod tally;
pub mod target;
pub mod texture;
