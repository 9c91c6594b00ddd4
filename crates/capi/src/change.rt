// An edit by its place and its values, with its answer as numbers.
ghost use Rattle.std.specs.Prelude.{◌≡◌};
ghost use Rattle.edit.specs.Editing.{place_of, values_of};
ghost use Rattle.capi.specs.Changed.{changed};
ghost use Rattle.capi.specs.inner.NewValues.{new_values};

use crate::answer::put;
use base::float::{Binary32, Hermite, HermiteBits};
use base::outcome::Answer;
use bflan::place::Place;
use edit::edit::{Change, edit};
use edit::key::NewKey;

// The change that these values are at a place: `n` of them at a key, which says its kind, and the first one elsewhere.
// Kept: `n` as a number. Each exported function gives the count of its values, and an enum of key kinds would be `NewKey` again, without its values.
#[tactic(auto, using(crate::proofs::Keys::constant_said, crate::proofs::Keys::step_said, crate::proofs::Keys::hermite_said, crate::proofs::Keys::three_said), unfolding(edit::specs::Editing::place_of, edit::specs::Editing::values_of))]
fn change_of(place: Place, n: u32, x: u32, y: u32, z: u32) -> Change
    ensures { (place_of result ≡ place) × (values_of result ≡ new_values place n x y z) }
{
    match place {
        Place::FrameCount => Change::FrameCount(x),
        Place::Looping => Change::Looping(x),
        Place::Layer(c, i, t) => Change::Layer(c, i, t, x),
        Place::Target(c, i, t) => Change::Target(c, i, t, x),
        Place::Key(c, i, t, k) => match n {
            1 => Change::Key(c, i, t, k, NewKey::Constant(Binary32::from_bits(x))),
            2 => Change::Key(c, i, t, k, NewKey::Step(Binary32::from_bits(x), y)),
            _ => Change::Key(
                c,
                i,
                t,
                k,
                NewKey::Hermite(Hermite::from_bits(HermiteBits(x, y, z))),
            ),
        },
        Place::Value(c, i, d, l, v) => Change::Value(c, i, d, l, v, x),
    }
}

// The change is made here, and not by the exported functions: so it is never stored, by its parts, to be read by another function.
#[tactic(auto, using(base::proofs::Outcomes::flat_first), unfolding(crate::specs::Changed::changed))]
pub(crate) fn change(
    section: &mut [u8],
    journal: &mut [u32],
    count: usize,
    place: Place,
    n: u32,
    x: u32,
    y: u32,
    z: u32,
    answer: &mut [usize],
)
    ensures { (section.new, journal.new, answer.new) ≡ changed section.old journal.old count place (new_values place n x y z) answer.old }
{
    let new = change_of(place, n, x, y, z);
    let n = edit(section, journal, count, new).numbers();
    put(answer, &[n.0, n.1, n.2]);
}
