// What stands at a place of a section now.
ghost use Rattle.std.specs.Prelude.{◌≡◌, ◌+◌, ◌≤◌, length};
ghost use Rattle.base.specs.Float.{float_of, hermite_of, patterns_at};
ghost use Rattle.base.specs.Number.{get};
ghost use Rattle.bflan.specs.pai1.FieldValues.{numbers_in};
ghost use Rattle.bflan.specs.pai1.Letters.{target_of};
ghost use Rattle.bflan.specs.pai1.Places.{widths, total};
ghost use Rattle.bflan.specs.pai1.Record.{key_widths};
ghost use Rattle.edit.specs.FieldAt.{key_of, read_at, field_at, of_value, of_counted_value};
ghost use Rattle.edit.specs.inner.Packing.{values_in};

use crate::journal::number_at;
use crate::key::NewKey;
use crate::spot::{field_as, spot_at, way_of};
use crate::values::Values;
use base::float::{Binary32, Hermite, read_f32, read_hermite};
use base::outcome::{Answer, Numbers};
use bflan::letters::{AnimInfoType, kind_of};
use bflan::place::{Field, LocateError, Place};
use bflan::read::flag_of;

// A field's value, as the record has it.
#[derive(Clone, Copy)]
pub enum FieldValue {
    FrameCount(u32),
    // 0 or 1. Kept: a number as in every other case, and the word that the record has.
    Looping(u32),
    Layer(u32),
    Target(u32),
    Key(NewKey),
    // A binary32's bits.
    Value(u32),
}

// A float that is known to be there.
#[tactic(auto, using(base::proofs::Floats::float_there))]
fn float_at(s: &[u8], at: usize) -> Binary32
    requires { at + 4 ≤ length s.now }
    ensures { result ≡ float_of (get 4 s.now at) }
{
    read_f32(s, at).unwrap().0
}

// Three floats that are known to be there.
#[tactic(auto, using(base::proofs::Floats::hermite_there))]
fn hermite_at(s: &[u8], at: usize) -> Hermite
    requires { at + 12 ≤ length s.now }
    ensures { result ≡ hermite_of (patterns_at s.now at) }
{
    read_hermite(s, at).unwrap().0
}

// A key of this curve.
// Kept: the curve as a number, since `key_of` is of any (bflan's `Field::Key`). A `Curve` would need a case for the others.
#[tactic(auto, unfolding(bflan::specs::pai1::Record::key_widths, bflan::specs::pai1::Places::total, bflan::specs::pai1::FieldValues::numbers_in, crate::specs::FieldAt::key_of, base::specs::Float::patterns_at))]
fn key_at(s: &[u8], at: usize, curve: u32) -> NewKey
    requires { at + total (key_widths curve) ≤ length s.now }
    ensures { result ≡ key_of curve (numbers_in (key_widths curve) s.now at) }
{
    match curve {
        0 => NewKey::Constant(float_at(s, at)),
        1 => NewKey::Step(float_at(s, at), number_at::<u16>(s, at + 4)),
        _ => NewKey::Hermite(hermite_at(s, at)),
    }
}

// A target's number as the record has it.
// Kept: bflan's `resolve` answers the same. Called here too, it is no longer compiled into the reading of targets, and a section of many Step keys takes
// 4.9 % more instructions to read.
#[tactic(auto, unfolding(bflan::specs::pai1::Letters::target_of, bflan::specs::pai1::Letters::target_under))]
fn number_of(letters: u32, raw: u32) -> u32
    ensures { result ≡ target_of letters raw }
{
    match kind_of(letters) {
        AnimInfoType::Standard(count) => {
            if raw < u32::from(count) {
                return raw;
            }
            0
        }
        AnimInfoType::ExtendedUserData => 255,
        AnimInfoType::Invalid => 255,
    }
}

#[tactic(auto, unfolding(bflan::specs::pai1::Places::widths, bflan::specs::pai1::Places::total, bflan::specs::pai1::FieldValues::as_read, bflan::specs::pai1::FieldValues::numbers_in, crate::specs::FieldAt::read_at, crate::specs::FieldAt::field_value))]
fn value_at(s: &[u8], at: usize, f: Field) -> FieldValue
    requires { at + total (widths f) ≤ length s.now }
    ensures { result ≡ read_at s.now at f }
{
    match f {
        Field::FrameCount => FieldValue::FrameCount(number_at::<u16>(s, at)),
        Field::Looping => FieldValue::Looping(flag_of(number_at::<u8>(s, at))),
        Field::Layer => FieldValue::Layer(number_at::<u8>(s, at)),
        Field::Target(letters) => FieldValue::Target(number_of(letters, number_at::<u8>(s, at))),
        Field::Key(curve) => FieldValue::Key(key_at(s, at, curve)),
        Field::Value => FieldValue::Value(number_at::<u32>(s, at)),
    }
}

pub fn field_at(section: &[u8], place: Place) -> Result<FieldValue, LocateError>
    ensures { result ≡ field_at section.now place }
{
    let w = way_of(place);
    let kind = w.kind;
    // Kept: a match. With `?` a key of a small section takes 681 instructions in place of 657, which is 3.7 % more.
    match spot_at(section, kind, w.content, w.info, w.target, w.key, w.value) {
        Ok(spot) => {
            let f = field_as(spot.kind, spot.number);
            Ok(value_at(section, spot.at, f))
        }
        Err(error) => Err(error),
    }
}

// How many values there are, and the values.
impl Answer for FieldValue {
    ghost outcome = { of_counted_value };

    fn numbers(self) -> Numbers {
        Values::from(self).numbers()
    }
}
