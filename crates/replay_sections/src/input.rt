// The cases of a sample: sections to read, and records to write.
use crate::compare::WORDS;
use arrayvec::ArrayVec;
use base::outcome::Numbers;

#[derive(Clone, Copy)]
pub(crate) struct Case<'a> {
    pub(crate) section: &'a [u8],
    // the tables' lengths
    pub(crate) words: usize,
    pub(crate) texts: usize,
    pub(crate) answer: Numbers,
    // the words and the text bytes that the tables then begin with: none where the section is not read
    pub(crate) record_words: &'a [u8],
    pub(crate) record_texts: &'a [u8],
}

#[derive(Clone, Copy)]
pub(crate) struct Record<'a> {
    pub(crate) words: &'a [u8],
    pub(crate) texts: &'a [u8],
    // the output's length
    pub(crate) room: usize,
    pub(crate) answer: Numbers,
    // the bytes that the output then begins with: none where the record is not written
    pub(crate) section: &'a [u8],
}

#[derive(Clone, Copy)]
pub(crate) enum Item<'a> {
    // A section to read.
    Case(Case<'a>),
    // A record to write.
    Record(Record<'a>),
}

// What is still to come of the sample, or of a record's words in it.
#[derive(Clone, Copy)]
pub(crate) struct Rest<'a>(pub(crate) &'a [u8]);

impl<'a> Rest<'a> {
    fn byte(&mut self) -> Option<u8> {
        let (b, rest) = self.0.split_first()?;
        self.0 = rest;
        Some(*b)
    }

    // A number of 16 bits.
    fn half(&mut self) -> Option<usize> {
        let (bytes, rest) = self.0.split_first_chunk::<2>()?;
        self.0 = rest;
        Some(usize::from(u16::from_le_bytes(*bytes)))
    }

    // A number of 32 bits.
    pub(crate) fn word(&mut self) -> Option<u32> {
        let (bytes, rest) = self.0.split_first_chunk::<4>()?;
        self.0 = rest;
        Some(u32::from_le_bytes(*bytes))
    }

    // The same as a count.
    pub(crate) fn count(&mut self) -> Option<usize> {
        Some(self.word()? as usize)
    }

    pub(crate) fn take(&mut self, len: usize) -> Option<&'a [u8]> {
        let (bytes, rest) = self.0.split_at_checked(len)?;
        self.0 = rest;
        Some(bytes)
    }

    // The bytes of so many words.
    fn words(&mut self, n: usize) -> Option<&'a [u8]> {
        self.take(n.checked_mul(4)?)
    }

    // A section to read.
    fn case(&mut self) -> Option<Case<'a>> {
        let len = self.half()?;
        let section = self.take(len)?;
        let words = self.half()?;
        let texts = self.half()?;
        let number = self.count()?;
        let a = self.count()?;
        let b = self.count()?;
        let replaced = self.count()?;
        let answer = Numbers(number, a, b, replaced, 0);
        Some(Case {
            section,
            words,
            texts,
            answer,
            record_words: self.words(if_accepted(answer, a))?,
            record_texts: self.take(if_accepted(answer, b))?,
        })
    }

    // A record to write.
    fn record(&mut self) -> Option<Record<'a>> {
        let n = self.half()?;
        let m = self.half()?;
        let room = self.half()?;
        let words = self.words(n)?;
        let texts = self.take(m)?;
        let number = self.count()?;
        let a = self.count()?;
        let answer = Numbers(number, a, 0, 0, 0);
        Some(Record {
            words,
            texts,
            room,
            answer,
            section: self.take(if_accepted(answer, a))?,
        })
    }

    // The next case, if a whole one stands here: its first byte says which kind it is.
    pub(crate) fn item(&mut self) -> Option<Item<'a>> {
        match self.byte()? {
            0 => Some(Item::Case(self.case()?)),
            1 => Some(Item::Record(self.record()?)),
            _ => None,
        }
    }
}

// A value that is a length if the call is accepted, and else 0.
fn if_accepted(answer: Numbers, v: usize) -> usize {
    if answer.0 == 0 { v } else { 0 }
}

// The words that stand in these bytes, if there is room for them.
pub(crate) fn words_of(bytes: &[u8]) -> Option<ArrayVec<u32, WORDS>> {
    let mut rest = Rest(bytes);
    let mut words = ArrayVec::new();
    for _ in 0..bytes.len() / 4 {
        words.try_push(rest.word()?).ok()?;
    }
    Some(words)
}
