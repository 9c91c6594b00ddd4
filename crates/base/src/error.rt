// What stops a read.

// A read or a seek past the end of a slice: the offset, and the bytes requested or the excess.
#[derive(Clone, Copy)]
pub struct PastEnd {
    pub offset: usize,
    pub requested: usize,
}

// What stops the read of a text.
#[derive(Clone, Copy)]
pub enum TextError {
    PastEnd(PastEnd),
    // No zero before the slice ends: the text's start.
    NoZero(usize),
}
