// The texts of a section, quoted. A text can hold any characters: those that could end a line or steer a terminal are escaped.
use bflan::find::{find_text, text_part};
use console::hex::Escaped;
use std::fmt;

// A text in quotes. (A text that was found is well-formed; bytes that are not would be escaped.)
#[derive(Clone, Copy)]
pub(crate) struct Quoted<'a>(pub(crate) &'a [u8]);

impl fmt::Display for Quoted<'_> {
    fn fmt<W: fmt::Write>(&self, f: &mut fmt::Formatter<W>) -> fmt::Result {
        f.write_str("\"")?;
        for chunk in self.0.utf8_chunks() {
            for c in chunk.valid().chars() {
                f.write(Shown(c))?;
            }
            for b in chunk.invalid() {
                f.write(Escaped(*b))?;
            }
        }
        f.write_str("\"")
    }
}

// A character of a text in quotes.
#[derive(Clone, Copy)]
struct Shown(char);

impl fmt::Display for Shown {
    fn fmt<W: fmt::Write>(&self, f: &mut fmt::Formatter<W>) -> fmt::Result {
        let c = self.0;
        match c {
            '"' | '\\' => write!(f, "\\{c}"),
            // a control character, or one that ends a line by Unicode
            '\0'..='\x1F' | '\x7F'..='\u{9F}' | '\u{2028}' | '\u{2029}' => escape(c, f),
            _ => f.write_char(c),
        }
    }
}

// Each byte of a character, escaped.
fn escape<W: fmt::Write>(c: char, f: &mut fmt::Formatter<W>) -> fmt::Result {
    let mut bytes = [0; 4];
    for b in c.encode_utf8(&mut bytes).as_bytes() {
        f.write(Escaped(*b))?;
    }
    Ok(())
}

// A text of a section, and how many characters of it were replaced, where the section's bytes are ill-formed.
#[derive(Clone, Copy)]
pub(crate) struct Text<'a> {
    pub(crate) quoted: Quoted<'a>,
    replaced: usize,
}

impl<'a> Text<'a> {
    // The text of a section that has this number. (A section that was read has the texts of its record, so there is no other answer.)
    pub(crate) fn find(section: &'a [u8], number: usize, scratch: &'a mut [u8]) -> Text<'a> {
        match find_text(section, number, scratch) {
            Ok(found) => Text {
                quoted: Quoted(text_part(section, scratch, found.source, found.start, found.len)),
                replaced: found.replaced,
            },
            Err(_error) => Text {
                quoted: Quoted(b""),
                replaced: 0,
            },
        }
    }
}

impl fmt::Display for Text<'_> {
    fn fmt<W: fmt::Write>(&self, f: &mut fmt::Formatter<W>) -> fmt::Result {
        let Text { quoted, replaced } = *self;
        match replaced {
            0 => f.write(quoted),
            n => write!(f, "{quoted} (ill-formed, replaced {n})"),
        }
    }
}
