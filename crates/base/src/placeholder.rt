// Places of four bytes that are still to be patched (writer.rs of the Rust). Only this module makes them, and only a patch uses them.
ghost use Rattle.std.specs.Prelude.{◌≡◌, ◌+◌, ◌*◌, min, replicate};
ghost use Rattle.std.proofs.lemmas.List.Edits.{sets};
ghost use Rattle.base.specs.Number.{put};
ghost use Rattle.base.specs.Placeholder.{entry_at};

use crate::fill::zeros;
use crate::number::write;

#[derive(Clone, Copy)]
pub struct Placeholder32(usize);

// A table of such places, one behind another: where it starts, and how many there are.
#[derive(Clone, Copy)]
pub struct Placeholders32(usize, usize);

// Four zeros hold the place.
pub fn write_placeholder_u32(out: &mut [u8], at: usize) -> Placeholder32
    ensures { (result.0 ≡ at) × (out.new ≡ put 4 out.old at 0) }
{
    write::<u32>(out, at, 0);
    Placeholder32(at)
}

// Where the place behind `i` others from `at` on starts, or the largest number where that does not hold it.
fn place_of(at: usize, i: usize) -> usize
    ensures { result ≡ min (at + 4 * i) 18446744073709551615 }
{
    // Kept: `at.saturating_add(i.saturating_mul(4))` was tried, and a table's places and a patch take 4 to 10 % longer.
    if i <= (usize::MAX - at) / 4 {
        return at + 4 * i;
    }
    usize::MAX
}

// Four zeros for each of `n` places from `at` on. A call that fills memory takes longer than one place, or none, needs.
#[tactic(auto, using(crate::proofs::Placeholders::gaps_one, crate::proofs::Placeholders::zeros_most))]
fn write_gaps(out: &mut [u8], at: usize, n: usize)
    ensures { out.new ≡ sets out.old at (replicate (4 * n) 0) }
{
    if n == 0 {
        return;
    }
    if n == 1 {
        write::<u32>(out, at, 0);
        return;
    }
    let size = place_of(0, n);
    zeros(out, at, size);
}

// Four zeros hold each of the `n` places from `at` on.
pub fn write_placeholders_u32(out: &mut [u8], at: usize, n: usize) -> Placeholders32
    ensures { (result.0 ≡ at) × (result.1 ≡ n) × (out.new ≡ sets out.old at (replicate (4 * n) 0)) }
{
    write_gaps(out, at, n);
    Placeholders32(at, n)
}

// Entry `i` of a table. Where there is none, the place is the largest number: no slice has a byte there, so a patch stores nothing.
#[tactic(auto, using(crate::proofs::Placeholders::entry_within, crate::proofs::Placeholders::entry_none))]
pub fn placeholder_of(table: Placeholders32, i: usize) -> Placeholder32
    ensures { result.0 ≡ entry_at table.0 table.1 i }
{
    if i < table.1 {
        return Placeholder32(place_of(table.0, i));
    }
    Placeholder32(usize::MAX)
}

pub fn patch_u32(out: &mut [u8], p: Placeholder32, v: u32)
    ensures { out.new ≡ put 4 out.old p.0 v }
{
    let at = p.0;
    write::<u32>(out, at, v);
}
