// The fields of a section that can be edited (document 01, 'Edits and undo'), and where they stand.
ghost use Rattle.std.specs.Prelude.{◌≡◌, ◌+◌, IfSome};
ghost use Rattle.std.specs.Option.{option_map};
ghost use Rattle.base.specs.Number.{get};
ghost use Rattle.bflan.specs.declared.place.LocateError.TheVariants.{Fault as Unread};
ghost use Rattle.bflan.specs.pai1.Curves.{curve_number};
ghost use Rattle.bflan.specs.pai1.Locating.{of_locate_error, locating};
ghost use Rattle.bflan.specs.inner.Path.{spot_of, content_base, info_base, target_base, after_base, datum_base, SectionAt, ContentAt, InfoAt, TargetAt, DatumAt};
ghost use Rattle.bflan.specs.pai1.Places.{stride, info_table_in, track_at, key_in, value_in, locate};
ghost use Rattle.bflan.specs.Reader.{many};
ghost use Rattle.bflan.specs.pai1.Reading.{datum};

use crate::curve::{Curve, curve_and_count};
use crate::fault::Fault;
use crate::letters::{FLEU, letters_of};
use crate::read::{LIMIT, measure};
use crate::reader::content::USER;
use crate::reader::datum::data;
use crate::reader::offset::{byte_at, half_at, offset_at, word_at};
use crate::reader::tally::{Tables, fresh};
use crate::section::Section;
use base::outcome::{Answer, Numbers};

// A field by its place in the record. Places count from 0: content, info, target, key; or content, info, datum, list, value.
#[derive(Clone, Copy)]
pub enum Place {
    FrameCount,
    Looping,
    Layer(usize, usize, usize),
    Target(usize, usize, usize),
    Key(usize, usize, usize, usize),
    Value(usize, usize, usize, usize, usize),
}

// What a field is: it says how many bytes the field has, and which values it takes.
#[derive(Clone, Copy)]
pub enum Field {
    FrameCount,
    Looping,
    Layer,
    // A target's number, under these letters.
    Target(u32),
    // A key of the curve with this number.
    // Kept: a number and no `Curve`: the definitions `field_of` and `fit` are of any number that a record may hold.
    Key(u32),
    Value,
}

// Where a target stands, as reading has it: its first byte, its curve and its key count, and the first byte of its first key.
#[derive(Clone, Copy)]
pub struct Track {
    pub start: usize,
    pub curve: Curve,
    pub count: usize,
    pub keys: usize,
}

// Where the field of a place stands: the place of its first byte, and what the field is.
#[derive(Clone, Copy)]
pub struct FieldSpot {
    pub at: usize,
    pub field: Field,
}

// Why no field is found.
#[derive(Clone, Copy)]
pub enum LocateError {
    // The section's length, above the limit.
    TooLong(usize),
    // The section does not read.
    Fault(Fault),
    NoSuchPlace,
}

impl Answer for LocateError {
    ghost outcome = { of_locate_error };

    #[tactic(auto, unfolding(base::specs::Outcome::flat))]
    fn numbers(self) -> Numbers {
        match self {
            LocateError::TooLong(size) => Numbers(2, size, 0, 0, 0),
            LocateError::Fault(fault) => fault.numbers(),
            LocateError::NoSuchPlace => Numbers(10, 0, 0, 0, 0),
        }
    }
}

impl From<Fault> for LocateError {
    ghost from_gives = { λ fault error. error ≡ Unread fault };

    fn from(fault: Fault) -> LocateError {
        LocateError::Fault(fault)
    }
}

// The parts of a section that reads. A part's type says what stands at its place. Its methods lead to the parts under it, or to `None` where
// there is no such part.

// A section that reads.
#[derive(Clone, Copy)]
struct Whole<'a> {
    s: Section<'a>,
    ghost reads: { SectionAt s.bytes.now },
}

// The content that starts at `at`.
#[derive(Clone, Copy)]
struct Content<'a> {
    s: Section<'a>,
    at: usize,
    ghost reads: { ContentAt s.bytes.now at },
}

// The info that starts at `at`.
#[derive(Clone, Copy)]
struct Info<'a> {
    s: Section<'a>,
    at: usize,
    ghost reads: { InfoAt s.bytes.now at },
}

// The target that starts at `at`.
#[derive(Clone, Copy)]
struct Target<'a> {
    s: Section<'a>,
    at: usize,
    ghost reads: { TargetAt s.bytes.now at },
}

// The datum that starts at `at`.
#[derive(Clone, Copy)]
struct Datum<'a> {
    s: Section<'a>,
    at: usize,
    ghost reads: { DatumAt s.bytes.now at },
}

impl<'a> Whole<'a> {
    #[tactic(auto, unfolding(crate::specs::inner::Path::content_base))]
    fn content(self, c: usize) -> Option<Content<'a>>
        ensures place { option_map (λ x. x.at) result ≡ content_base self.entry.s.bytes.now c }
        ensures same { IfSome result (λ x. x.s ≡ self.entry.s) }
    {
        let s = self.s.bytes;
        let n = half_at(s, 14) as usize;
        if c < n {
            let table = offset_at(s, 16);
            let at = offset_at(s, table + 4 * c);
            return Some(Content { s: self.s, at });
        }
        None
    }

    // The field of a place.
    #[tactic(auto, using(crate::proofs::place::Locating::path_steps), unfolding(crate::specs::pai1::Places::locate, crate::specs::inner::Path::spot_of))]
    fn path(self, place: Place) -> Option<FieldSpot>
        ensures { result ≡ spot_of (locate self.entry.s.bytes.now place) }
    {
        match place {
            Place::FrameCount => Some(FieldSpot {
                at: 8,
                field: Field::FrameCount,
            }),
            Place::Looping => Some(FieldSpot {
                at: 10,
                field: Field::Looping,
            }),
            Place::Layer(c, i, t) => {
                let target = self.content(c)?.info(i)?.target(t)?;
                Some(FieldSpot {
                    at: target.at,
                    field: Field::Layer,
                })
            }
            Place::Target(c, i, t) => {
                let info = self.content(c)?.info(i)?;
                let target = info.target(t)?;
                Some(FieldSpot {
                    at: target.at + 1,
                    field: Field::Target(letters_of(info.letters())),
                })
            }
            Place::Key(c, i, t, k) => self.content(c)?.info(i)?.target(t)?.key(k),
            Place::Value(c, i, d, l, v) => self.content(c)?.info(i)?.datum(d)?.value(l, v),
        }
    }
}

impl<'a> Content<'a> {
    // Where the info table stands.
    #[tactic(auto, unfolding(crate::specs::pai1::Places::info_table_in))]
    fn table(self) -> usize
        ensures { result ≡ info_table_in self.entry.s.bytes.now self.entry.at }
    {
        let s = self.s.bytes;
        let b = self.at;
        if byte_at(s, b + 29) == USER {
            return b + offset_at(s, b + 32);
        }
        b + 32
    }

    #[tactic(auto, unfolding(crate::specs::inner::Path::info_base))]
    fn info(self, i: usize) -> Option<Info<'a>>
        ensures place { option_map (λ x. x.at) result ≡ info_base self.entry.s.bytes.now self.entry.at i }
        ensures same { IfSome result (λ x. x.s ≡ self.entry.s) }
    {
        let s = self.s.bytes;
        let b = self.at;
        let n = byte_at(s, b + 28) as usize;
        if i < n {
            let at = b + offset_at(s, self.table() + 4 * i);
            return Some(Info { s: self.s, at });
        }
        None
    }
}

impl<'a> Info<'a> {
    fn letters(self) -> u32
        ensures { result ≡ get 4 self.entry.s.bytes.now self.entry.at }
    {
        word_at(self.s.bytes, self.at)
    }

    #[tactic(auto, unfolding(crate::specs::inner::Path::target_base, crate::specs::pai1::Letters::fleu, base::specs::Number::val))]
    fn target(self, t: usize) -> Option<Target<'a>>
        ensures place { option_map (λ x. x.at) result ≡ target_base self.entry.s.bytes.now self.entry.at t }
        ensures same { IfSome result (λ x. x.s ≡ self.entry.s) }
    {
        if self.letters() == FLEU {
            return None;
        }
        let s = self.s.bytes;
        let b = self.at;
        let n = byte_at(s, b + 4) as usize;
        if t < n {
            let at = b + offset_at(s, b + 8 + 4 * t);
            return Some(Target { s: self.s, at });
        }
        None
    }

    #[tactic(auto, using(crate::proofs::place::Locating::datum_there), unfolding(crate::specs::inner::Path::datum_base, crate::specs::pai1::Letters::fleu, base::specs::Number::val))]
    fn datum(self, d: usize) -> Option<Datum<'a>>
        ensures place { option_map (λ x. x.at) result ≡ datum_base self.entry.s.bytes.now self.entry.at d }
        ensures same { IfSome result (λ x. x.s ≡ self.entry.s) }
    {
        if self.letters() != FLEU {
            return None;
        }
        let n = byte_at(self.s.bytes, self.at + 4) as usize;
        if d < n {
            let at = self.after(d)?;
            return Some(Datum { s: self.s, at });
        }
        None
    }

    // Where the reader stands after `d` of the data.
    #[tactic(auto, using(crate::proofs::place::Locating::data_behind))]
    fn after(self, d: usize) -> Option<usize>
        ensures { result ≡ after_base (many d datum self.entry.s.bytes.now (self.entry.at + 8)) }
    {
        let mut words = [0u32; 0];
        let mut texts = [0u8; 0];
        let mut into = Tables {
            words: &mut words,
            texts: &mut texts,
            tally: fresh(0),
        };
        data(self.s, self.at + 8, d, &mut into).ok()
    }
}

// The bytes from one key to the next.
#[tactic(auto, unfolding(crate::specs::pai1::Places::stride, crate::specs::pai1::Places::total, crate::specs::pai1::Record::key_widths, crate::specs::pai1::Layout::key_skip))]
fn stride(curve: Curve) -> usize
    ensures { result ≡ stride (curve_number curve) }
{
    match curve {
        Curve::Constant => 4,
        Curve::Step => 8,
        Curve::Hermite => 12,
    }
}

impl<'a> Target<'a> {
    // The target, as reading has it.
    fn track(self) -> Track
        ensures { result ≡ track_at self.entry.s.bytes.now self.entry.at }
    {
        let s = self.s.bytes;
        let b = self.at;
        let (curve, count) = curve_and_count(byte_at(s, b + 2), half_at(s, b + 4));
        Track {
            start: b,
            curve,
            count: count as usize,
            keys: b + offset_at(s, b + 8),
        }
    }

    #[tactic(auto, using(crate::proofs::place::Locating::number_by), unfolding(crate::specs::pai1::Places::key_in, crate::specs::inner::Path::spot_of))]
    fn key(self, k: usize) -> Option<FieldSpot>
        ensures { result ≡ spot_of (key_in self.entry.s.bytes.now self.entry.at k) }
    {
        let t = self.track();
        if t.count <= k {
            return None;
        }
        Some(FieldSpot {
            at: t.keys + k * stride(t.curve),
            field: Field::Key(u32::from(t.curve)),
        })
    }
}

impl<'a> Datum<'a> {
    // Value `v` of list `l`.
    #[tactic(auto, unfolding(crate::specs::pai1::Places::value_in, crate::specs::inner::Path::spot_of))]
    fn value(self, l: usize, v: usize) -> Option<FieldSpot>
        ensures { result ≡ spot_of (value_in self.entry.s.bytes.now self.entry.at l v) }
    {
        let b = self.at;
        let n = offset_at(self.s.bytes, b + 8);
        if 3 <= l {
            return None;
        }
        if n <= v {
            return None;
        }
        Some(FieldSpot {
            at: b + 16 + 4 * (l * n + v),
            field: Field::Value,
        })
    }
}

#[tactic(auto, using(crate::proofs::place::Locating::locating_long, crate::proofs::place::Locating::locating_stop))]
pub fn locate(section: &[u8], place: Place) -> Result<FieldSpot, LocateError>
    ensures { result ≡ locating section.now place }
{
    let size = section.len();
    if LIMIT < size {
        return Err(LocateError::TooLong(size));
    }
    let s = Section { bytes: section };
    measure(s, 0)?;
    Whole { s }.path(place).ok_or(LocateError::NoSuchPlace)
}
