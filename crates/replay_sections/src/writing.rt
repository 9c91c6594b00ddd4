// Writing the record of a case into an output that stands among marked places.
use crate::compare::{BEFORE, is_right, mark};
use crate::input::{Record, words_of};
use crate::report::Counts;
use base::outcome::Answer;
use bflan::write::write;
use std::io;

// The longest output, and all places around it.
const OUTPUT: usize = 512;

const ALL: usize = 528;

// Writes the record of a case. False if there is no room for such a record.
pub(crate) fn write_record(r: &Record, counts: &mut Counts) -> io::Result<bool> {
    let Record {
        words,
        texts,
        room,
        answer,
        section,
    } = *r;
    let Some(words) = words_of(words) else {
        return Ok(false);
    };
    if room > OUTPUT {
        return Ok(false);
    }
    counts.records = counts.records.wrapping_add(1);
    let mut places = [0; ALL];
    mark(&mut places);
    let given = write(words.as_slice(), texts, &mut places[BEFORE..room + BEFORE]).numbers();
    counts.note(given == answer, "answer")?;
    counts.note(is_right(&places, section), "section")?;
    Ok(true)
}
