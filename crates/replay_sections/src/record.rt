// A walk over the words of a record that meets the length of each text (document 01, 'Flat record').
use base::number::read;
use bflan::curve::Curve;
use bflan::letters::FLEU;

// More than a record of the sample has of anything.
const FAR: usize = 65536;

// How many parts of an info are to come, and of which kind.
#[derive(Clone, Copy)]
enum Parts {
    Targets(usize),
    Data(usize),
}

// Where the walk stands, and how many textures, contents, infos of the content, and parts of the info are to come.
#[derive(Clone, Copy)]
pub(crate) struct Place {
    pub(crate) at: usize,
    textures: usize,
    contents: usize,
    infos: usize,
    parts: Parts,
}

#[derive(Clone, Copy)]
pub(crate) enum Met {
    // The length of a text, and the place behind it.
    Length(usize, Place),
    // Words of something else.
    Other(Place),
    // All is passed.
    End,
}

// A sum; of more than FAR, only one of the two numbers.
pub(crate) fn plus(a: usize, b: usize) -> usize {
    if a > FAR {
        a
    } else if b > FAR {
        b
    } else {
        a + b
    }
}

// Word i, or 0 behind the last.
fn word(words: &[u8], i: usize) -> u32 {
    if i > FAR {
        return 0;
    }
    match read::<u32>(words, 4 * i) {
        Ok((word, _next)) => word,
        Err(_past) => 0,
    }
}

// The same as a count.
fn count(words: &[u8], i: usize) -> usize {
    word(words, i) as usize
}

// The curve whose number is word i. (A record that was read has no other number.)
fn curve(words: &[u8], i: usize) -> Curve {
    Curve::try_from(word(words, i)).unwrap_or(Curve::Hermite)
}

fn three_times(n: usize) -> usize {
    plus(n, plus(n, n))
}

// The words of n keys.
fn key_words(curve: Curve, n: usize) -> usize {
    match curve {
        Curve::Constant => n,
        Curve::Step => plus(n, n),
        Curve::Hermite => three_times(n),
    }
}

impl Place {
    pub(crate) fn first(words: &[u8]) -> Place {
        Place {
            at: 4,
            textures: count(words, 2),
            contents: count(words, 3),
            infos: 0,
            parts: Parts::Targets(0),
        }
    }

    fn texture(self, words: &[u8]) -> Met {
        let next = Place {
            at: plus(self.at, 1),
            textures: self.textures.saturating_sub(1),
            ..self
        };
        Met::Length(count(words, self.at), next)
    }

    fn content(self, words: &[u8]) -> Met {
        let next = Place {
            at: plus(self.at, 3),
            contents: self.contents.saturating_sub(1),
            infos: count(words, plus(self.at, 2)),
            ..self
        };
        Met::Length(count(words, self.at), next)
    }

    fn info(self, words: &[u8]) -> Met {
        let n = count(words, plus(self.at, 1));
        Met::Other(Place {
            at: plus(self.at, 2),
            infos: self.infos.saturating_sub(1),
            parts: if word(words, self.at) == FLEU {
                Parts::Data(n)
            } else {
                Parts::Targets(n)
            },
            ..self
        })
    }

    // A target, behind which so many targets are to come.
    fn target(self, words: &[u8], more: usize) -> Met {
        let keys = count(words, plus(self.at, 3));
        let size = key_words(curve(words, plus(self.at, 2)), keys);
        Met::Other(Place {
            at: plus(plus(self.at, 4), size),
            parts: Parts::Targets(more),
            ..self
        })
    }

    // A datum, behind which so many data are to come: a text follows its three lists.
    fn datum(self, words: &[u8], more: usize) -> Met {
        let n = count(words, plus(self.at, 3));
        let at = plus(plus(self.at, 5), three_times(n));
        let next = Place {
            at: plus(at, 1),
            parts: Parts::Data(more),
            ..self
        };
        Met::Length(count(words, at), next)
    }

    // What stands here.
    pub(crate) fn meet(self, words: &[u8]) -> Met {
        match self.parts {
            _ if self.textures > 0 => self.texture(words),
            Parts::Targets(n @ 1..) => self.target(words, n - 1),
            Parts::Data(n @ 1..) => self.datum(words, n - 1),
            _ if self.infos > 0 => self.info(words),
            _ if self.contents > 0 => self.content(words),
            _ => Met::End,
        }
    }
}
