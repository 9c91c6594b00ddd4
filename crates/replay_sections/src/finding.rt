// Finding the texts of a section that is read, into a scratch that stands among marked places.
ghost use Rattle.std.specs.Prelude.{◌≤◌, length};

use crate::compare::{BEFORE, is_right, mark};
use crate::input::Case;
use crate::record::{Met, Place, plus};
use crate::report::Counts;
use base::outcome::Answer;
use base::part::part;
use bflan::find::{FindError, Found, find_text, text_part};
use std::io;

// The scratch, where it ends, and all places.
const SCRATCH: usize = 320;

const END: usize = 328;

const ALL: usize = 336;

// Looks for a text.
fn find_among(section: &[u8], t: usize, places: &mut [u8]) -> Result<Found, FindError>
    requires { 328 ≤ length places.old }
{
    find_text(section, t, &mut places[BEFORE..END])
}

// Where a text was found.
#[derive(Clone, Copy)]
enum Shown {
    InSection,
    // In the scratch: so many of its characters were replaced.
    Decoded(usize),
}

// Text t, if it is the one that is wanted: it stands in the section, with no replaced character and all places as they were; or it was
// decoded, with some, and only the first bytes of the scratch have changed, as many as it has there.
fn find_wanted(section: &[u8], t: usize, wanted: &[u8]) -> Option<Shown> {
    let mut places = [0; ALL];
    mark(&mut places);
    let Found {
        source,
        start,
        len,
        replaced,
    } = find_among(section, t, &mut places).ok()?;
    if text_part(section, part(&places, BEFORE, SCRATCH), source, start, len) != wanted {
        return None;
    }
    let shown = match source {
        0 if replaced == 0 && is_right(&places, b"") => Shown::InSection,
        1 if replaced > 0 && start == 0 && is_right(&places, wanted) => Shown::Decoded(replaced),
        _ => return None,
    };
    if len == wanted.len() {
        Some(shown)
    } else {
        None
    }
}

// Whether there is no text t.
fn find_none(section: &[u8], t: usize) -> bool {
    let mut places = [0; ALL];
    mark(&mut places);
    match find_among(section, t, &mut places) {
        Err(FindError::NoSuchText) => is_right(&places, b""),
        _ => false,
    }
}

// More steps than a record of the sample takes.
const MANY: usize = 1000;

// How far the texts of a record were looked for: the place in its words, its text bytes, the place in these, the number of the next text, how
// many replaced characters of the sum that the reading gave are still to come, and how many texts were found.
#[derive(Clone, Copy)]
struct Walk<'a> {
    section: &'a [u8],
    place: Place,
    texts: &'a [u8],
    at: usize,
    text: usize,
    left: usize,
    in_section: u64,
    decoded: u64,
}

impl Walk<'_> {
    // Looks for the next text, which has `len` bytes. None if it is not the section's.
    fn text(&mut self, len: usize) -> Option<()> {
        let wanted = part(self.texts, self.at, len);
        if wanted.len() != len {
            return None;
        }
        match find_wanted(self.section, self.text, wanted)? {
            Shown::InSection => self.in_section = self.in_section.wrapping_add(1),
            Shown::Decoded(replaced) => {
                self.decoded = self.decoded.wrapping_add(1);
                self.left = self.left.checked_sub(replaced)?;
            }
        }
        self.text = self.text.wrapping_add(1);
        self.at = plus(self.at, len);
        Some(())
    }

    // Walks over the words of a record. None if a text is not the section's, or if the record does not end where its words, its texts and the
    // section's texts end, with no replaced character left.
    fn record(&mut self, words: &[u8]) -> Option<()> {
        for _ in 0..MANY {
            self.place = match self.place.meet(words) {
                Met::Length(len, next) => {
                    self.text(len)?;
                    next
                }
                Met::Other(next) => next,
                Met::End => {
                    let ends = self.place.at == words.len() / 4
                        && self.at == self.texts.len()
                        && self.left == 0
                        && find_none(self.section, self.text);
                    return if ends { Some(()) } else { None };
                }
            };
        }
        None
    }
}

// Whether the texts of a case's section are those of its record, and so many of their characters are replaced.
fn find_all(c: &Case, replaced: usize, counts: &mut Counts) -> bool {
    let mut walk = Walk {
        section: c.section,
        place: Place::first(c.record_words),
        texts: c.record_texts,
        at: 0,
        text: 0,
        left: replaced,
        in_section: 0,
        decoded: 0,
    };
    let right = walk.record(c.record_words).is_some();
    counts.in_section = counts.in_section.wrapping_add(walk.in_section);
    counts.decoded = counts.decoded.wrapping_add(walk.decoded);
    right
}

// Looks for the texts of a case. (Where the tables are too short, the sample has no texts.)
pub(crate) fn find_texts(c: &Case, counts: &mut Counts) -> io::Result<()> {
    let answer = c.answer;
    match answer.0 {
        0 => {
            let right = find_all(c, answer.3, counts);
            counts.note(right, "texts found")?;
            counts.replaced = counts.replaced.wrapping_add(answer.3);
            Ok(())
        }
        5 => Ok(()),
        // looking for a text is refused as reading is
        _ => {
            let mut places = [0; ALL];
            mark(&mut places);
            let found = find_among(c.section, 0, &mut places).numbers();
            let right = found == answer && is_right(&places, b"");
            counts.note(right, "text refused")
        }
    }
}
