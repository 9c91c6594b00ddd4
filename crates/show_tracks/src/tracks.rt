// The walk over the words of a record, with a line for each of its parts (document 01, 'Flat record').
use crate::float::Float;
use crate::names::{CurveName, Letters, Target, Type};
use crate::text::{Quoted, Text};
use bflan::curve::Curve;
use bflan::letters::FLEU;
use std::{fmt, io};

// What 28 bytes can decode to, where each becomes U+FFFD.
const NAME: usize = 84;

// Where the walk stands: the words that are still to come, and the number of the next text.
#[derive(Clone, Copy)]
struct Walk<'a> {
    section: &'a [u8],
    words: &'a [u32],
    text: usize,
}

impl<'a> Walk<'a> {
    // The next word. (A record that was read has all the words that are asked for.)
    fn word(&mut self) -> u32 {
        let Some((word, rest)) = self.words.split_first() else {
            return 0;
        };
        self.words = rest;
        *word
    }

    fn count(&mut self) -> usize {
        self.word() as usize
    }

    fn float(&mut self) -> Float {
        Float(self.word())
    }

    // (A record that was read has no other number than a curve's.)
    fn curve(&mut self) -> Curve {
        Curve::try_from(self.word()).unwrap_or(Curve::Hermite)
    }

    fn key(&mut self, curve: Curve) -> Key {
        match curve {
            Curve::Constant => Key::Constant(self.float()),
            Curve::Step => Key::Step(self.float(), self.word()),
            Curve::Hermite => Key::Hermite(self.float(), self.float(), self.float()),
        }
    }

    // The next text, whose length the record has, too.
    fn text<'s>(&mut self, scratch: &'s mut [u8]) -> Text<'s>
    where
        'a: 's,
    {
        let number = self.text;
        self.text = number.wrapping_add(1);
        Text::find(self.section, number, scratch)
    }
}

// A key: a value; a frame and a value; or a frame, a value and a slope.
#[derive(Clone, Copy)]
enum Key {
    Constant(Float),
    Step(Float, u32),
    Hermite(Float, Float, Float),
}

impl fmt::Display for Key {
    fn fmt<W: fmt::Write>(&self, f: &mut fmt::Formatter<W>) -> fmt::Result {
        match self {
            Key::Constant(value) => write!(f, "({value})"),
            Key::Step(frame, value) => write!(f, "({frame}, {value})"),
            Key::Hermite(frame, value, slope) => write!(f, "({frame}, {value}, {slope})"),
        }
    }
}

// A content of the record.
#[derive(Clone, Copy)]
struct Content<'a> {
    number: usize,
    name: Quoted<'a>,
}

// An info, below its content.
#[derive(Clone, Copy)]
struct Info<'a> {
    content: Content<'a>,
    number: usize,
    letters: Letters,
}

// Kept: `out`, `walk` and `scratch` as three arguments, here and below. One struct was tried. The borrow checker doesn't cover a text that is
// made from a scratch within it (`a struct that holds a reference is made while a reference at that lifetime is lent again`).
fn show_texture(
    out: HostRuntime,
    walk: &mut Walk,
    number: usize,
    scratch: &mut [u8],
) -> io::Result<()> {
    let _len = walk.word();
    let name = walk.text(scratch);
    println!(out; "texture {number}: {name}")
}

fn show_track(out: HostRuntime, walk: &mut Walk, info: &Info, number: usize) -> io::Result<()> {
    let Info {
        content,
        number: place,
        letters,
    } = *info;
    let Content {
        number: outer,
        name,
    } = content;
    let layer = walk.word();
    let target = Target {
        letters,
        number: walk.word(),
    };
    let curve = walk.curve();
    let keys = walk.count();
    print!(out;
        "track {outer} {place} {number}: {name} {letters} {target}, layer {layer}, {}, keys {keys}:",
        CurveName(curve)
    )?;
    for _ in 0..keys {
        let key = walk.key(curve);
        print!(out; " {key}")?;
    }
    println!(out)
}

// A list of extended data.
fn show_values(out: HostRuntime, walk: &mut Walk, count: usize) -> io::Result<()> {
    print!(out; " [")?;
    for i in 0..count {
        let value = walk.float();
        print!(out; "{}{value}", if i == 0 { "" } else { ", " })?;
    }
    print!(out; "]")
}

// An extended datum, with its header's five fields by the Rust's names.
fn show_datum(
    out: HostRuntime,
    walk: &mut Walk,
    info: &Info,
    number: usize,
    scratch: &mut [u8],
) -> io::Result<()> {
    let Info {
        content,
        number: place,
        ..
    } = *info;
    let Content {
        number: outer,
        name,
    } = content;
    let key = walk.text(scratch);
    let header_size = walk.word();
    let unk_1 = walk.word();
    let unk_2 = walk.word();
    let base_count = walk.count();
    let unk_3 = walk.word();
    print!(out;
        "datum {outer} {place} {number}: {name} {key}, header_size {header_size}, unk_1 {unk_1}, unk_2 {unk_2}, base_count {base_count}, unk_3 {unk_3}:"
    )?;
    for _list in 0..3 {
        show_values(out, walk, base_count)?;
    }
    let _len = walk.word();
    println!(out)
}

fn show_info(
    out: HostRuntime,
    walk: &mut Walk,
    content: Content,
    number: usize,
    scratch: &mut [u8],
) -> io::Result<()> {
    let word = walk.word();
    let count = walk.count();
    let letters = Letters(word);
    let parts = if word == FLEU { "data" } else { "targets" };
    println!(out;
        "info {} {number}: {letters}, {parts} {count}",
        content.number
    )?;
    let info = Info {
        content,
        number,
        letters,
    };
    for i in 0..count {
        if word == FLEU {
            show_datum(out, walk, &info, i, scratch)?;
        } else {
            show_track(out, walk, &info, i)?;
        }
    }
    Ok(())
}

fn show_content(
    out: HostRuntime,
    walk: &mut Walk,
    number: usize,
    scratch: &mut [u8],
) -> io::Result<()> {
    let mut names = [0; NAME];
    let name = walk.text(&mut names);
    let _len = walk.word();
    let kind = Type(walk.word());
    let infos = walk.count();
    println!(out; "content {number}: {name}, {kind}, infos {infos}")?;
    let content = Content {
        number,
        name: name.quoted,
    };
    for i in 0..infos {
        show_info(out, walk, content, i, scratch)?;
    }
    Ok(())
}

// The lines of a section whose record is in the words. The scratch has room for each of its texts.
pub(crate) fn show(
    out: HostRuntime,
    section: &[u8],
    words: &[u32],
    replaced: usize,
    scratch: &mut [u8],
) -> io::Result<()> {
    let mut walk = Walk {
        section,
        words,
        text: 0,
    };
    let frames = walk.word();
    let looping = if walk.word() == 0 { "no" } else { "yes" };
    let textures = walk.count();
    let contents = walk.count();
    println!(out;
        "section: frames {frames}, looping {looping}, textures {textures}, contents {contents}, replaced {replaced}"
    )?;
    for i in 0..textures {
        show_texture(out, &mut walk, i, scratch)?;
    }
    for i in 0..contents {
        show_content(out, &mut walk, i, scratch)?;
    }
    Ok(())
}
