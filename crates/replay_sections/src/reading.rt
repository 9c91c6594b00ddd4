// Reading the section of a case into tables that stand among marked places.
use crate::compare::{BEFORE, TEXTS, WORDS, is_right, mark};
use crate::input::{Case, words_of};
use crate::report::Counts;
use base::outcome::{Answer, Numbers};
use bflan::read::read;
use std::io;

// All places.
const ALL_WORDS: usize = 272;

const ALL_TEXTS: usize = 336;

// Whether the table begins with the record's words, and all other places have their marks.
fn words_right(places: &[u32], record: &[u8]) -> bool {
    match words_of(record) {
        Some(words) => is_right(places, words.as_slice()),
        None => false,
    }
}

// Reads the section of a case into its tables. False if there is no room for such tables.
pub(crate) fn read_section(c: &Case, counts: &mut Counts) -> io::Result<bool> {
    let Case {
        section,
        words: n,
        texts: m,
        answer,
        record_words,
        record_texts,
    } = *c;
    if n > WORDS || m > TEXTS {
        return Ok(false);
    }
    let mut words = [0; ALL_WORDS];
    let mut texts = [0; ALL_TEXTS];
    mark(&mut words);
    mark(&mut texts);
    let given = read(
        section,
        &mut words[BEFORE..n + BEFORE],
        &mut texts[BEFORE..m + BEFORE],
    )
    .numbers();
    counts.note(given == answer, "answer")?;
    counts.note(words_right(&words, record_words), "words")?;
    counts.note(is_right(&texts, record_texts), "text bytes")?;
    Ok(true)
}
