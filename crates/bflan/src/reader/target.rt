// Targets: twelve bytes, and keys at an offset that counts from the target's start.
ghost use Rattle.std.specs.Prelude.{◌≡◌, List, [], ◌∷◌, ℕ, ◌+◌, ◌*◌, ◌<◌, ◌≤◌, length, Ok};
ghost use Rattle.base.specs.Number.{get};
ghost use Rattle.base.specs.Run.{numbers_at};
ghost use Rattle.base.specs.Seek.{seek_of};
ghost use Rattle.bflan.specs.Reader.{and_then, ret, word, visit};
ghost use Rattle.bflan.specs.pai1.Curves.{curve_number};
ghost use Rattle.bflan.specs.pai1.Reading.{keys, target};
ghost use Rattle.bflan.specs.inner.Walk.{walk_of, walked};

use crate::curve::Curve;
use crate::letters::resolve;
use crate::reader::keys::keys;
use crate::reader::offset::{byte_at, half_at, offset_at};
use crate::reader::row::sought_cut;
use crate::reader::table::Part;
use crate::reader::tally::{Tables, Walk};
use crate::section::Section;
use base::seek::seek;

// The words of a curve and of its key count, and the keys from `p` on.
fn put_keys(s: &[u8], p: usize, curve: Curve, n: usize, into: &mut Tables<'_>) -> Walk
    requires { n < 65536 }
    ensures { walked result into.new ≡ walk_of s.now into.old (and_then (keys (curve_number curve) n s.now p) (λ ks. ret (word (curve_number curve) ∷ word n ∷ ks)) s.now) }
{
    // Kept: a cast of the count. Where it was handed on as the u32 that it is read as, Step keys took 4 to 6 % longer to read.
    into.put2(u32::from(curve), n as u32);
    keys(s, p, curve, n, into)
}

// The four words and the keys of the target that starts at `base`, whose twelve bytes are there, and whose keys stand at `p`. A number that no curve
// has is an empty Constant.
fn target_from(s: &[u8], letters: u32, base: usize, p: usize, into: &mut Tables<'_>) -> Walk
    requires { base + 12 ≤ length s.now }
    ensures { (i : ℕ) → seek_of s.now (base + get 4 s.now (base + 8)) ≡ Ok p → walked result into.new ≡ walk_of s.now into.old (target letters base s.now i) }
{
    let layer = byte_at(s, base);
    let number = resolve(letters, s[base + 1]);
    into.put2(layer, u32::from(number));
    match Curve::try_from(byte_at(s, base + 2)) {
        Ok(curve) => put_keys(s, p, curve, half_at(s, base + 4) as usize, into),
        Err(_unknown) => {
            into.put2(0, 0);
            Ok(p)
        }
    }
}

// The target that starts at `base`.
#[tactic(auto, using(crate::proofs::reader::Walks::told_handed, crate::proofs::reader::Walks::told_stop, crate::proofs::reader::TargetParts::target_short, crate::proofs::reader::TargetParts::target_past), unfolding(crate::specs::inner::Row::width_of))]
pub(crate) fn target_at(s: Section, letters: u32, base: usize, into: &mut Tables<'_>) -> Walk
    requires { base ≤ 17179869184 }
    ensures { (i : ℕ) → walked result into.new ≡ walk_of s.entry.bytes.now into.old (target letters base s.entry.bytes.now i) }
{
    if s.bytes.len() < base + 12 {
        return Err(sought_cut(s.bytes, base, b"\x01\x01\x01\x01\x02\x02\x04"));
    }
    let offset = offset_at(s.bytes, base + 8);
    let p = seek(s.bytes, base + offset)?;
    target_from(s.bytes, letters, base, p, into)
}

// The targets of an info with these letters, as parts of a table.
#[derive(Clone, Copy)]
pub(crate) struct Targets {
    pub letters: u32,
}

impl Part for Targets {
    ghost part = { λ it. target it.letters };

    ghost most = { 17179869184 };

    fn read_at(&self, s: Section, base: usize, into: &mut Tables<'_>) -> Walk {
        target_at(s, self.letters, base, into)
    }
}
