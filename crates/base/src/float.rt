// IEEE 754 binary32 by its bit patterns: a number is an `f32`, a NaN keeps its pattern, so that reading and writing change no bit.
ghost use Rattle.std.specs.Prelude.{to_bits};
ghost use Rattle.std.specs.Prelude.{◌≡◌};
ghost use Rattle.std.specs.Float.{binary32};
ghost use Rattle.std.specs.Float.Ieee.{nan_bits};
ghost use Rattle.base.specs.Number.{put};
ghost use Rattle.base.specs.Float.{float_of, pattern_of, hermite_of, patterns_of, read_float_of, read_hermite_of, put_patterns};

use crate::error::PastEnd;
use crate::number::{read, write};

// A number, or a NaN by its pattern.
#[derive(Clone, Copy)]
pub enum Binary32 {
    Number(f32),
    Nan(u32),
}

#[derive(Clone, Copy)]
pub struct HermiteKey {
    pub frame: f32,
    pub value: f32,
    pub slope: f32,
}

// A Hermite key, or the patterns of its frame, its value and its slope, where one of them is a NaN's.
#[derive(Clone, Copy)]
pub enum Hermite {
    Floats(HermiteKey),
    Patterns(u32, u32, u32),
}

// The patterns of a frame, a value and a slope.
#[derive(Clone, Copy)]
pub struct HermiteBits(pub u32, pub u32, pub u32);

// Whether a pattern is a NaN's: above the infinity's, with the sign's bit off.
#[tactic(auto, using(crate::proofs::Floats::nan_above))]
pub fn is_nan(bits: u32) -> bool
    ensures { result ≡ nan_bits binary32 bits }
{
    bits % 2147483648 > 2139095040
}

// The pattern of a float. A NaN that is an `f32` has no payload to keep, and gets the pattern 7FC00000.
#[tactic(auto, using(crate::proofs::Floats::only_nan))]
pub fn bits_of(x: f32) -> u32
    ensures { result ≡ to_bits binary32 x }
{
    if x.is_nan() {
        2143289344
    } else {
        f32::to_bits(x)
    }
}

impl Binary32 {
    #[tactic(auto, unfolding(crate::specs::Float::float_of))]
    pub fn from_bits(bits: u32) -> Binary32
        ensures { result ≡ float_of bits }
    {
        if is_nan(bits) {
            return Binary32::Nan(bits);
        }
        Binary32::Number(f32::from_bits(bits))
    }

    #[tactic(auto, unfolding(crate::specs::Float::pattern_of))]
    pub fn to_bits(self) -> u32
        ensures { result ≡ pattern_of self }
    {
        match self {
            Binary32::Number(v) => bits_of(v),
            Binary32::Nan(n) => n,
        }
    }
}

impl Hermite {
    #[tactic(auto, unfolding(crate::specs::Float::hermite_of))]
    pub fn from_bits(bits: HermiteBits) -> Hermite
        ensures { result ≡ hermite_of bits }
    {
        let f = bits.0;
        let v = bits.1;
        let s = bits.2;
        if is_nan(f) | is_nan(v) | is_nan(s) {
            return Hermite::Patterns(f, v, s);
        }
        Hermite::Floats(HermiteKey {
            frame: f32::from_bits(f),
            value: f32::from_bits(v),
            slope: f32::from_bits(s),
        })
    }

    #[tactic(auto, unfolding(crate::specs::Float::patterns_of))]
    pub fn to_bits(self) -> HermiteBits
        ensures { result ≡ patterns_of self }
    {
        match self {
            Hermite::Floats(k) => HermiteBits(bits_of(k.frame), bits_of(k.value), bits_of(k.slope)),
            Hermite::Patterns(f, v, s) => HermiteBits(f, v, s),
        }
    }
}

pub fn read_f32(s: &[u8], at: usize) -> Result<(Binary32, usize), PastEnd>
    ensures { result ≡ read_float_of s.now at }
{
    let (bits, next) = read::<u32>(s, at)?;
    Ok((Binary32::from_bits(bits), next))
}

pub fn write_f32(out: &mut [u8], at: usize, x: Binary32)
    ensures { out.new ≡ put 4 out.old at (pattern_of x) }
{
    write::<u32>(out, at, x.to_bits());
}

pub fn read_hermite(s: &[u8], at: usize) -> Result<(Hermite, usize), PastEnd>
    ensures { result ≡ read_hermite_of s.now at }
{
    let (frame, second) = read::<u32>(s, at)?;
    let (value, third) = read::<u32>(s, second)?;
    let (slope, next) = read::<u32>(s, third)?;
    Ok((Hermite::from_bits(HermiteBits(frame, value, slope)), next))
}

#[tactic(auto, using(crate::proofs::Numbers::put_out), unfolding(crate::specs::Float::put_patterns))]
pub fn write_hermite(out: &mut [u8], at: usize, h: Hermite)
    ensures { out.new ≡ put_patterns out.old at (patterns_of h) }
{
    let b = h.to_bits();
    if at < out.len() {
        write::<u32>(out, at, b.0);
        write::<u32>(out, at + 4, b.1);
        write::<u32>(out, at + 8, b.2);
    }
}
