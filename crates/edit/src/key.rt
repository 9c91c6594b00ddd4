// A new key, with the floats that it has (document 01, 'Form by location').
use base::float::{Binary32, Hermite};

#[derive(Clone, Copy)]
pub enum NewKey {
    Constant(Binary32),
    // The value has sixteen bits in a section: a larger one is unfit.
    Step(Binary32, u32),
    Hermite(Hermite),
}
