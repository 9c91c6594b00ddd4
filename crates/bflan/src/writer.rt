// Writing a record that was judged: the parts of a section, stored one after another.

mod content;
mod datum;
mod field;
mod info;
mod listed;
pub mod section;
mod target;

// A record's words and texts, the section that is written, and where the writing stands: the next word, the next text byte, and the next byte of
// the section.
#[derive(Drop)]
pub struct Writer<'r, 'o> {
    pub words: &'r [u32],
    pub texts: &'r [u8],
    pub out: &'o mut [u8],
    pub word: usize,
    pub byte: usize,
    pub at: usize,
}
