// How a target goes from key to key (`Curve` of the Rust), and the number that stands for it in a section and in a record.
ghost use Rattle.std.specs.Prelude.{◌≡◌};
ghost use Rattle.bflan.specs.pai1.Curves.{curve_number, NamesCurve};
ghost use Rattle.bflan.specs.pai1.Reading.{curve_of, count_of};

#[derive(Clone, Copy, PartialEq, Eq)]
pub enum Curve {
    Constant,
    Step,
    Hermite,
}

impl From<Curve> for u32 {
    ghost from_gives = { λ curve n. n ≡ curve_number curve };

    fn from(curve: Curve) -> u32 {
        match curve {
            Curve::Constant => 0,
            Curve::Step => 1,
            Curve::Hermite => 2,
        }
    }
}

// A number that no curve has.
#[derive(Clone, Copy)]
pub struct UnknownCurve(pub u32);

impl TryFrom<u32> for Curve {
    type Error = UnknownCurve;

    ghost try_from_gives = { NamesCurve };

    fn try_from(number: u32) -> Result<Curve, UnknownCurve> {
        match number {
            0 => Ok(Curve::Constant),
            1 => Ok(Curve::Step),
            2 => Ok(Curve::Hermite),
            _ => Err(UnknownCurve(number)),
        }
    }
}

// What the curve and the key count of a target in a section are: a number that no curve has is an empty Constant, whatever the count.
#[tactic(auto, unfolding(crate::specs::pai1::Reading::curve_of, crate::specs::pai1::Reading::count_of))]
pub(crate) fn curve_and_count(raw: u32, count: u32) -> (Curve, u32)
    ensures { (curve_number result.0 ≡ curve_of raw) × (result.1 ≡ count_of raw count) }
{
    match Curve::try_from(raw) {
        Ok(curve) => (curve, count),
        Err(_unknown) => (Curve::Constant, 0),
    }
}
