// The changes that can be said: a name, and behind it the numbers of a place and the new value.
use crate::arguments::{Arguments, Misuse};
use base::float::{Binary32, Hermite, HermiteBits};
use edit::edit::Change;
use edit::key::NewKey;

#[derive(Clone, Copy)]
pub(crate) enum Step {
    Make(Change),
    // Takes back the last change that was not taken back.
    Undo,
}

// A change of a key.
fn key(c: u32, i: u32, t: u32, k: u32, new: NewKey) -> Step {
    Step::Make(Change::Key(c as usize, i as usize, t as usize, k as usize, new))
}

// The step that the name at argument `i` says, with the numbers behind it. A key has its floats by their bits.
pub(crate) fn step_at(arguments: &mut Arguments, i: usize) -> Result<Step, Misuse> {
    let step = match arguments.name(i) {
        "frames" => {
            let [v] = arguments.numbers::<1>(i)?;
            Step::Make(Change::FrameCount(v))
        }
        "looping" => {
            let [v] = arguments.numbers::<1>(i)?;
            Step::Make(Change::Looping(v))
        }
        "layer" => {
            let [c, i, t, v] = arguments.numbers::<4>(i)?;
            Step::Make(Change::Layer(c as usize, i as usize, t as usize, v))
        }
        "target" => {
            let [c, i, t, v] = arguments.numbers::<4>(i)?;
            Step::Make(Change::Target(c as usize, i as usize, t as usize, v))
        }
        "constant" => {
            let [c, i, t, k, v] = arguments.numbers::<5>(i)?;
            key(c, i, t, k, NewKey::Constant(Binary32::from_bits(v)))
        }
        "step" => {
            let [c, i, t, k, frame, v] = arguments.numbers::<6>(i)?;
            key(c, i, t, k, NewKey::Step(Binary32::from_bits(frame), v))
        }
        "hermite" => {
            let [c, i, t, k, frame, v, slope] = arguments.numbers::<7>(i)?;
            let h = Hermite::from_bits(HermiteBits(frame, v, slope));
            key(c, i, t, k, NewKey::Hermite(h))
        }
        "value" => {
            let [c, i, d, l, n, v] = arguments.numbers::<6>(i)?;
            Step::Make(Change::Value(
                c as usize, i as usize, d as usize, l as usize, n as usize, v,
            ))
        }
        "undo" => Step::Undo,
        _ => return Err(Misuse::NoName(i)),
    };
    Ok(step)
}
