// Little-endian numbers of one, two and four bytes at a position of a slice.
ghost use Rattle.std.specs.Prelude.{ℕ, ◌≡◌, ◌+◌, ◌≤◌, length};
ghost use Rattle.std.proofs.Common.{rules};
ghost use Rattle.base.specs.Number.{get, put, read_of};

use crate::error::PastEnd;
use crate::fill::room;

// How a number is stored where there is room for it. These methods ask for that room, so this trait is not public, and only this crate calls them.
pub(crate) trait Stored {
    const WIDTH: usize;

    ghost WIDTH: { ℕ };

    fn get(s: &[u8], at: usize) -> u32
        requires { at + WIDTH ≤ length s.now }
        ensures { result ≡ get WIDTH s.now at };

    fn put(out: &mut [u8], at: usize, v: u32)
        requires { at + WIDTH ≤ length out.old }
        ensures { out.new ≡ put WIDTH out.old at v };

    // A number has one byte at least. So where it has room, its place is one of the slice.
    ghost some: { 1 ≤ WIDTH };
}

impl Stored for u8 {
    const WIDTH: usize = 1;

    ghost WIDTH = { 1 };

    #[tactic(auto, using(crate::proofs::Numbers::get_suc, crate::proofs::Numbers::get_zero))]
    fn get(s: &[u8], at: usize) -> u32 {
        u32::from(s[at])
    }

    #[tactic(auto, using(crate::proofs::Numbers::put_one))]
    fn put(out: &mut [u8], at: usize, v: u32) {
        out[at] = v.to_le_bytes()[0];
    }

    ghost some = { Prim.search rules };
}

impl Stored for u16 {
    const WIDTH: usize = 2;

    ghost WIDTH = { 2 };

    #[tactic(auto, using(crate::proofs::Numbers::from_two))]
    fn get(s: &[u8], at: usize) -> u32 {
        u32::from(u16::from_le_bytes([s[at], s[at + 1]]))
    }

    #[tactic(auto, using(crate::proofs::Numbers::put_two))]
    fn put(out: &mut [u8], at: usize, v: u32) {
        let bytes = v.to_le_bytes();
        out[at] = bytes[0];
        out[at + 1] = bytes[1];
    }

    ghost some = { Prim.search rules };
}

impl Stored for u32 {
    const WIDTH: usize = 4;

    ghost WIDTH = { 4 };

    #[tactic(auto, using(crate::proofs::Numbers::from_four))]
    fn get(s: &[u8], at: usize) -> u32 {
        u32::from_le_bytes([s[at], s[at + 1], s[at + 2], s[at + 3]])
    }

    #[tactic(auto, using(crate::proofs::Numbers::put_four))]
    fn put(out: &mut [u8], at: usize, v: u32) {
        let bytes = v.to_le_bytes();
        out[at] = bytes[0];
        out[at + 1] = bytes[1];
        out[at + 2] = bytes[2];
        out[at + 3] = bytes[3];
    }

    ghost some = { Prim.search rules };
}

// A number of one, two or four bytes: u8, u16, u32.
pub trait Number: Stored {}

impl<N: Stored> Number for N {}

#[tactic(auto, using(crate::proofs::Numbers::read_short, crate::proofs::Numbers::read_is))]
pub fn read<N: Number>(s: &[u8], at: usize) -> Result<(u32, usize), PastEnd>
    ensures { result ≡ read_of N.WIDTH s.now at }
{
    if s.len().saturating_sub(at) < N::WIDTH {
        return Err(PastEnd {
            offset: at,
            requested: N::WIDTH,
        });
    }
    Ok((N::get(s, at), at + N::WIDTH))
}

// The first of the `k` bytes of `v`, as many as there is room for: the way of a write that runs past the end.
// Kept: a copy of `to_le_bytes` was tried. It becomes a call; a loop that writes must save its values around the call, and takes 10 % longer.
#[tactic(auto, using(crate::proofs::Numbers::put_end))]
fn write_clipped(out: &mut [u8], at: usize, k: usize, v: u32)
    ensures { out.new ≡ put k out.old at v }
{
    let n = room(k, at, out.len());
    let mut w = v;
    for i in 0..n {
        out[at + i] = w.to_le_bytes()[0];
        w = w / 256;
    }
}

// The lowest bytes of `v`, as many as the number has; those that would stand past the end are dropped.
pub fn write<N: Number>(out: &mut [u8], at: usize, v: u32)
    ensures { out.new ≡ put N.WIDTH out.old at v }
{
    if out.len().saturating_sub(at) < N::WIDTH {
        write_clipped(out, at, N::WIDTH, v);
        return;
    }
    N::put(out, at, v);
}
