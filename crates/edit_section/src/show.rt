// What stands at a place, said as the arguments that would put it there.
use crate::arguments::{Arguments, Misuse};
use base::float::Binary32;
use bflan::place::Place;
use console::hex::Word;
use edit::field::FieldValue;
use edit::key::NewKey;
use std::fmt;

// The place that the name at argument `i` says, with the numbers behind it.
pub(crate) fn place_at(arguments: &mut Arguments, i: usize) -> Result<Place, Misuse> {
    let place = match arguments.name(i) {
        "frames" => Place::FrameCount,
        "looping" => Place::Looping,
        "layer" => {
            let [c, i, t] = arguments.numbers::<3>(i)?;
            Place::Layer(c as usize, i as usize, t as usize)
        }
        "target" => {
            let [c, i, t] = arguments.numbers::<3>(i)?;
            Place::Target(c as usize, i as usize, t as usize)
        }
        "key" => {
            let [c, i, t, k] = arguments.numbers::<4>(i)?;
            Place::Key(c as usize, i as usize, t as usize, k as usize)
        }
        "value" => {
            let [c, i, d, l, n] = arguments.numbers::<5>(i)?;
            Place::Value(c as usize, i as usize, d as usize, l as usize, n as usize)
        }
        _ => return Err(Misuse::NoName(i)),
    };
    Ok(place)
}

// The numbers of a place, a blank before each.
#[derive(Clone, Copy)]
struct Numbers(Place);

impl fmt::Display for Numbers {
    fn fmt<W: fmt::Write>(&self, f: &mut fmt::Formatter<W>) -> fmt::Result {
        match self.0 {
            Place::FrameCount | Place::Looping => Ok(()),
            Place::Layer(c, i, t) | Place::Target(c, i, t) => write!(f, " {c} {i} {t}"),
            Place::Key(c, i, t, k) => write!(f, " {c} {i} {t} {k}"),
            Place::Value(c, i, d, l, n) => write!(f, " {c} {i} {d} {l} {n}"),
        }
    }
}

// A float by its bits: `0x` and eight digits.
#[derive(Clone, Copy)]
struct Bits(u32);

impl fmt::Display for Bits {
    fn fmt<W: fmt::Write>(&self, f: &mut fmt::Formatter<W>) -> fmt::Result {
        write!(f, "0x{}", Word(self.0))
    }
}

impl From<Binary32> for Bits {
    fn from(x: Binary32) -> Bits {
        Bits(x.to_bits())
    }
}

// A place, and what stands there.
#[derive(Clone, Copy)]
pub(crate) struct Shown(pub(crate) Place, pub(crate) FieldValue);

impl fmt::Display for Shown {
    fn fmt<W: fmt::Write>(&self, f: &mut fmt::Formatter<W>) -> fmt::Result {
        let at = Numbers(self.0);
        match self.1 {
            FieldValue::FrameCount(n) => write!(f, "frames {n}"),
            FieldValue::Looping(n) => write!(f, "looping {n}"),
            FieldValue::Layer(n) => write!(f, "layer{at} {n}"),
            FieldValue::Target(n) => write!(f, "target{at} {n}"),
            FieldValue::Key(NewKey::Constant(value)) => write!(
                f,
                "constant{at} {}",
                Bits::from(value)
            ),
            FieldValue::Key(NewKey::Step(frame, value)) => {
                write!(f, "step{at} {} {value}", Bits::from(frame))
            }
            FieldValue::Key(NewKey::Hermite(h)) => {
                let b = h.to_bits();
                write!(f, "hermite{at} {} {} {}", Bits(b.0), Bits(b.1), Bits(b.2))
            }
            FieldValue::Value(n) => write!(f, "value{at} {}", Bits(n)),
        }
    }
}
