// Where a field stands, asked and answered in plain numbers.
//
// An edit and `field_at` both call `spot_at`, so it is compiled as a function of its own. The caller of such a function stores an enum part by
// part. The function then loads several parts at once, and the processor waits until all of them are stored. Numbers are passed without that
// wait. So a place comes in as numbers, and the answer is an error or a struct of numbers.
//
// Kept: `Way`, `SpotAt` and the parameters of `spot_at`, in place of `Place` and `Field`, for that speed (docs/DECISIONS.md, 38).
ghost use Rattle.std.specs.Prelude.{◌≡◌};
ghost use Rattle.bflan.specs.pai1.Locating.{locating};
ghost use Rattle.edit.specs.inner.Packing.{place_as, field_as, spot_as, located_as};

use bflan::place::{Field, FieldSpot, LocateError, Place, locate};

// Which field of the six.
#[derive(Clone, Copy)]
pub enum Kind {
    FrameCount,
    Looping,
    Layer,
    Target,
    Key,
    Value,
}

// A place: its field's kind, and as many of the numbers as that has. Of an extended value the last three are its datum, list and value.
#[derive(Clone, Copy)]
pub struct Way {
    pub kind: Kind,
    pub content: usize,
    pub info: usize,
    pub target: usize,
    pub key: usize,
    pub value: usize,
}

// Where a field stands: its first byte, its kind, and a target's letters or a key's curve.
#[derive(Clone, Copy)]
pub struct SpotAt {
    pub at: usize,
    pub kind: Kind,
    pub number: u32,
}

#[tactic(auto, unfolding(crate::specs::inner::Packing::place_as))]
pub(crate) fn way_of(place: Place) -> Way
    ensures { place ≡ place_as result.kind result.content result.info result.target result.key result.value }
{
    match place {
        Place::FrameCount => Way {
            kind: Kind::FrameCount,
            content: 0,
            info: 0,
            target: 0,
            key: 0,
            value: 0,
        },
        Place::Looping => Way {
            kind: Kind::Looping,
            content: 0,
            info: 0,
            target: 0,
            key: 0,
            value: 0,
        },
        Place::Layer(content, info, target) => Way {
            kind: Kind::Layer,
            content,
            info,
            target,
            key: 0,
            value: 0,
        },
        Place::Target(content, info, target) => Way {
            kind: Kind::Target,
            content,
            info,
            target,
            key: 0,
            value: 0,
        },
        Place::Key(content, info, target, key) => Way {
            kind: Kind::Key,
            content,
            info,
            target,
            key,
            value: 0,
        },
        Place::Value(content, info, target, key, value) => Way {
            kind: Kind::Value,
            content,
            info,
            target,
            key,
            value,
        },
    }
}

#[tactic(auto, unfolding(crate::specs::inner::Packing::place_as))]
fn place_as(
    kind: Kind,
    content: usize,
    info: usize,
    target: usize,
    key: usize,
    value: usize,
) -> Place
    ensures { result ≡ place_as kind content info target key value }
{
    match kind {
        Kind::FrameCount => Place::FrameCount,
        Kind::Looping => Place::Looping,
        Kind::Layer => Place::Layer(content, info, target),
        Kind::Target => Place::Target(content, info, target),
        Kind::Key => Place::Key(content, info, target, key),
        Kind::Value => Place::Value(content, info, target, key, value),
    }
}

#[tactic(auto, unfolding(crate::specs::inner::Packing::field_as))]
pub(crate) fn field_as(kind: Kind, n: u32) -> Field
    ensures { result ≡ field_as kind n }
{
    match kind {
        Kind::FrameCount => Field::FrameCount,
        Kind::Looping => Field::Looping,
        Kind::Layer => Field::Layer,
        Kind::Target => Field::Target(n),
        Kind::Key => Field::Key(n),
        Kind::Value => Field::Value,
    }
}

#[tactic(auto, unfolding(crate::specs::inner::Packing::field_as, crate::specs::inner::Packing::spot_as))]
fn apart(spot: FieldSpot) -> SpotAt
    ensures { spot_as result ≡ spot }
{
    let at = spot.at;
    let (kind, number) = match spot.field {
        Field::FrameCount => (Kind::FrameCount, 0),
        Field::Looping => (Kind::Looping, 0),
        Field::Layer => (Kind::Layer, 0),
        Field::Target(letters) => (Kind::Target, letters),
        Field::Key(curve) => (Kind::Key, curve),
        Field::Value => (Kind::Value, 0),
    };
    SpotAt { at, kind, number }
}

#[tactic(auto, unfolding(crate::specs::inner::Packing::located_as))]
pub(crate) fn spot_at(
    section: &[u8],
    kind: Kind,
    content: usize,
    info: usize,
    target: usize,
    key: usize,
    value: usize,
) -> Result<SpotAt, LocateError>
    ensures { located_as result ≡ locating section.now (place_as kind content info target key value) }
{
    let spot = locate(section, place_as(kind, content, info, target, key, value))?;
    Ok(apart(spot))
}
