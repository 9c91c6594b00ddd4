// The words of a change's new value, and which of them a field takes.
ghost use Rattle.std.specs.Prelude.{◌≡◌, true, [], ◌∷◌, ◌<◌};
ghost use Rattle.base.specs.Outcome.{accepted, counted};
ghost use Rattle.bflan.specs.pai1.Places.{widths, total, fit_widths, fit};
ghost use Rattle.bflan.specs.declared.place.Field.TheVariants.{Target, Key};
ghost use Rattle.edit.specs.Editing.{place_of, key_words, values_of};
ghost use Rattle.edit.specs.FieldAt.{of_value};
ghost use Rattle.edit.specs.Journal.{field_size};
ghost use Rattle.edit.specs.inner.Packing.{values_in, words_of, one_most};

use crate::edit::Change;
use crate::field::FieldValue;
use crate::journal::Packed;
use crate::key::NewKey;
use base::float::{Binary32, bits_of};
use base::outcome::{Answer, Numbers};
use bflan::letters::target_fits;
use bflan::place::{Field, Place};

#[derive(Clone, Copy)]
pub enum Values {
    One(u32),
    Two(u32, u32),
    Three(u32, u32, u32),
}

#[tactic(auto, unfolding(crate::specs::Editing::place_of))]
pub(crate) fn place_of(change: Change) -> Place
    ensures { result ≡ place_of change }
{
    match change {
        Change::FrameCount(_v) => Place::FrameCount,
        Change::Looping(_v) => Place::Looping,
        Change::Layer(c, i, t, _v) => Place::Layer(c, i, t),
        Change::Target(c, i, t, _v) => Place::Target(c, i, t),
        Change::Key(c, i, t, k, _new) => Place::Key(c, i, t, k),
        Change::Value(c, i, d, l, n, _v) => Place::Value(c, i, d, l, n),
    }
}

// Kept: a match twice, and no `to_bits`, for speed. Handed to a function, a float is read as one number of eight bytes, and waits for its parts. This
// was measured only together with src/spot.rt.
impl From<NewKey> for Values {
    ghost from_gives = { λ key values. values_in values ≡ key_words key };

    #[tactic(auto, unfolding(base::specs::Float::pattern_of, crate::specs::Editing::key_words, crate::specs::inner::Packing::values_in))]
    fn from(key: NewKey) -> Values {
        match key {
            NewKey::Constant(value) => match value {
                Binary32::Number(x) => Values::One(bits_of(x)),
                Binary32::Nan(n) => Values::One(n),
            },
            NewKey::Step(frame, value) => match frame {
                Binary32::Number(x) => Values::Two(bits_of(x), value),
                Binary32::Nan(n) => Values::Two(n, value),
            },
            NewKey::Hermite(h) => {
                let b = h.to_bits();
                Values::Three(b.0, b.1, b.2)
            }
        }
    }
}

impl From<FieldValue> for Values {
    ghost from_gives = { λ value values. values_in values ≡ of_value value };

    #[tactic(auto, unfolding(crate::specs::FieldAt::of_value, crate::specs::inner::Packing::values_in))]
    fn from(value: FieldValue) -> Values {
        match value {
            FieldValue::FrameCount(n) => Values::One(n),
            FieldValue::Looping(n) => Values::One(n),
            FieldValue::Layer(n) => Values::One(n),
            FieldValue::Target(n) => Values::One(n),
            FieldValue::Key(key) => Values::from(key),
            FieldValue::Value(n) => Values::One(n),
        }
    }
}

// With zeros behind them.
impl From<Values> for Packed {
    ghost from_gives = { λ values packed. packed ≡ words_of values };

    #[tactic(auto, unfolding(crate::specs::inner::Packing::words_of))]
    fn from(values: Values) -> Packed {
        match values {
            Values::One(a) => Packed { a, b: 0, c: 0 },
            Values::Two(a, b) => Packed { a, b, c: 0 },
            Values::Three(a, b, c) => Packed { a, b, c },
        }
    }
}

// How many values there are, and the values.
impl Answer for Values {
    ghost outcome = { λ values. counted (accepted (values_in values)) };

    #[tactic(auto, unfolding(base::specs::Outcome::flat, base::specs::Outcome::counted, crate::specs::inner::Packing::values_in))]
    fn numbers(self) -> Numbers {
        match self {
            Values::One(a) => Numbers(0, 1, a as usize, 0, 0),
            Values::Two(a, b) => Numbers(0, 2, a as usize, b as usize, 0),
            Values::Three(a, b, c) => Numbers(0, 3, a as usize, b as usize, c as usize),
        }
    }
}

#[tactic(auto, unfolding(crate::specs::Editing::values_of, crate::specs::inner::Packing::values_in))]
pub(crate) fn values_of(change: Change) -> Values
    ensures { values_in result ≡ values_of change }
{
    match change {
        Change::FrameCount(v) => Values::One(v),
        Change::Looping(v) => Values::One(v),
        Change::Layer(_c, _i, _t, v) => Values::One(v),
        Change::Target(_c, _i, _t, v) => Values::One(v),
        Change::Key(_c, _i, _t, _k, new) => Values::from(new),
        Change::Value(_c, _i, _d, _l, _n, v) => Values::One(v),
    }
}

#[tactic(auto, unfolding(bflan::specs::pai1::Places::widths, bflan::specs::pai1::Places::total, bflan::specs::pai1::Record::key_widths, crate::specs::Journal::field_size))]
pub(crate) fn size_of(f: Field) -> u32
    ensures { (result ≡ total (widths f)) × (field_size result ≡ true) × (0 < result) }
{
    match f {
        Field::FrameCount => 2,
        Field::Looping => 1,
        Field::Layer => 1,
        Field::Target(_letters) => 1,
        // Kept: the curve's number, of which `key_widths` has any (bflan's Field::Key says why).
        Field::Key(curve) => match curve {
            0 => 4,
            1 => 6,
            _ => 12,
        },
        Field::Value => 4,
    }
}

// One value, of at most `most`.
#[tactic(auto, unfolding(crate::specs::inner::Packing::one_most, crate::specs::inner::Packing::values_in))]
fn one_most(v: Values, most: u32) -> bool
    ensures { result ≡ one_most (values_in v) most }
{
    matches!(v, Values::One(a) if a <= most)
}

// A Step key's two values.
#[tactic(auto, unfolding(bflan::specs::pai1::Places::fit_widths, crate::specs::inner::Packing::values_in))]
fn fits_step(v: Values) -> bool
    ensures { result ≡ fit_widths (4 ∷ 2 ∷ []) (values_in v) }
{
    matches!(v, Values::Two(_a, b) if b < 65536)
}

// A Hermite key's three values.
#[tactic(auto, unfolding(bflan::specs::pai1::Places::fit_widths, crate::specs::inner::Packing::values_in))]
fn fits_hermite(v: Values) -> bool
    ensures { result ≡ fit_widths (4 ∷ 4 ∷ 4 ∷ []) (values_in v) }
{
    matches!(v, Values::Three(_a, _b, _c))
}

#[tactic(auto, unfolding(bflan::specs::pai1::Places::fit, bflan::specs::pai1::Places::allowed, bflan::specs::pai1::Places::widths, bflan::specs::pai1::Places::fit_widths, crate::specs::inner::Packing::values_in))]
fn fits_target(letters: u32, v: Values) -> bool
    ensures { result ≡ fit (Target letters) (values_in v) }
{
    let Values::One(a) = v else {
        return false;
    };
    if 255 < a {
        return false;
    }
    target_fits(letters, a)
}

// Kept: the curve's number, of which `fit` has any (bflan's Field::Key says why).
#[tactic(auto, using(crate::proofs::Changes::fit_constant), unfolding(bflan::specs::pai1::Places::fit, bflan::specs::pai1::Places::allowed, bflan::specs::pai1::Places::widths, bflan::specs::pai1::Record::key_widths))]
fn fits_key(curve: u32, v: Values) -> bool
    ensures { result ≡ fit (Key curve) (values_in v) }
{
    match curve {
        0 => one_most(v, 4294967295),
        1 => fits_step(v),
        _ => fits_hermite(v),
    }
}

// Whether a field takes these values.
#[tactic(auto, using(crate::proofs::Changes::fit_frames, crate::proofs::Changes::fit_looping, crate::proofs::Changes::fit_layer, crate::proofs::Changes::fit_value))]
pub(crate) fn fits(f: Field, v: Values) -> bool
    ensures { result ≡ fit f (values_in v) }
{
    match f {
        Field::FrameCount => one_most(v, 65535),
        Field::Looping => one_most(v, 1),
        Field::Layer => one_most(v, 255),
        Field::Target(letters) => fits_target(letters, v),
        Field::Key(curve) => fits_key(curve, v),
        Field::Value => one_most(v, 4294967295),
    }
}
