// Runs of bytes stored into a slice: copied, or zeros. What would stand past the slice's end is dropped.
ghost use Rattle.std.specs.Prelude.{◌≡◌, ◌+◌, ◌-◌, ◌≤◌, min, length, take, drop, replicate};
ghost use Rattle.std.proofs.lemmas.List.Edits.{sets};
ghost use Rattle.base.specs.Fill.{padding_of};

// How many of the `n` places from `at` on lie below `size`.
pub(crate) fn room(n: usize, at: usize, size: usize) -> usize
    ensures { result ≡ min n (size - at) }
{
    n.min(size.saturating_sub(at))
}

// The first `n` bytes of `src`, from `at` on. The loop asks nothing of the bounds, so that it becomes one move of memory.
// Kept: `copy_from_slice` asks for a part of `out`, and where nothing is copied there may be none at `at`, so each call would need a test.
fn copy_first(src: &[u8], out: &mut [u8], at: usize, n: usize)
    requires { (n ≤ length src.now) × (n ≤ length out.old - at) }
    ensures { out.new ≡ sets out.old at (take n src.now) }
{
    for i in 0..n {
        out[at + i] = src[i];
    }
}

// `n` bytes from `at` on, and zeros behind them.
// Kept: `copy_from_slice` is no plainer, since it asks for a part of each side. With `n` a constant the loop is one load.
fn load(src: &[u8], at: usize, n: usize) -> [u8; 16]
    requires { (n ≤ 16) × (at + n ≤ length src.now) }
    ensures { (length result ≡ 16) × (take n result ≡ take n (drop at src.now)) }
{
    let mut block = [0u8; 16];
    for k in 0..n {
        block[k] = src[at + k];
    }
    block
}

// A few bytes, all read before the first is stored: with `n` a constant that is one load and one store.
fn copy_block(src: &[u8], from: usize, out: &mut [u8], at: usize, n: usize)
    requires { (n ≤ 16) × (from + n ≤ length src.now) × (n ≤ length out.old - at) }
    ensures { out.new ≡ sets out.old at (take n (drop from src.now)) }
{
    let block = load(src, from, n);
    copy_first(&block, out, at, n);
}

// 8 to 32 bytes as four blocks, which may overlap: one way for all these lengths, which a processor could not foresee.
#[tactic(auto, using(crate::proofs::Filling::fill_four))]
fn copy_four(src: &[u8], out: &mut [u8], at: usize, n: usize)
    requires { (8 ≤ n) × (n ≤ 32) × (n ≤ length src.now) × (n ≤ length out.old - at) }
    ensures { out.new ≡ sets out.old at (take n src.now) }
{
    let last = n - 8;
    let b = last.min(8);
    let c = last - b;
    copy_block(src, 0, out, at, 8);
    copy_block(src, b, out, at + b, 8);
    copy_block(src, c, out, at + c, 8);
    copy_block(src, last, out, at + last, 8);
}

// The bytes of `src`, from `at` on, and the place behind those that were stored. Short ones go by blocks: a loop, or a call that moves memory,
// takes longer than they do.
#[tactic(auto, using(crate::proofs::Filling::fill_room))]
pub(crate) fn copy_on(src: &[u8], out: &mut [u8], at: usize) -> usize
    ensures { (out.new ≡ sets out.old at src.now) × (result ≡ at + min (length src.now) (length out.old - at)) }
{
    let n = room(src.len(), at, out.len());
    if n < 8 {
        copy_first(src, out, at, n);
        return at + n;
    }
    if n < 33 {
        copy_four(src, out, at, n);
        return at + n;
    }
    copy_first(src, out, at, n);
    at + n
}

// The same, with a store for each byte where they are one to four and there is room for them, as for the bytes of a character: a loop takes longer
// than they do.
pub(crate) fn copy_few(src: &[u8], out: &mut [u8], at: usize) -> usize
    ensures { (out.new ≡ sets out.old at src.now) × (result ≡ at + min (length src.now) (length out.old - at)) }
{
    let n = src.len();
    if out.len().saturating_sub(at) < 4 {
        return copy_on(src, out, at);
    }
    if 4 < n {
        return copy_on(src, out, at);
    }
    if n == 0 {
        return at;
    }
    out[at] = src[0];
    if n == 1 {
        return at + 1;
    }
    out[at + 1] = src[1];
    if n == 2 {
        return at + 2;
    }
    out[at + 2] = src[2];
    if n == 3 {
        return at + 3;
    }
    out[at + 3] = src[3];
    at + 4
}

pub fn copy(src: &[u8], out: &mut [u8], at: usize)
    ensures { out.new ≡ sets out.old at src.now }
{
    copy_on(src, out, at);
}

// `n` zeros, from `at` on. Kept: `fill` asks for a part of `out`, as `copy_from_slice` does.
pub fn zeros(out: &mut [u8], at: usize, n: usize)
    ensures { out.new ≡ sets out.old at (replicate n 0) }
{
    for i in 0..room(n, at, out.len()) {
        out[at + i] = 0;
    }
}

// How many zeros bring a position to a multiple of 4. Its two low bits say how far it is past the last multiple; the outer mask makes 0 of 4.
#[tactic(auto, unfolding(crate::specs::Fill::padding_of))]
pub fn padding(at: usize) -> usize
    ensures { result ≡ padding_of at }
{
    (4 - (at & 3)) & 3
}

// Those zeros, stored; how many they are.
pub fn align4(out: &mut [u8], at: usize) -> usize
    ensures { (result ≡ padding_of at) × (out.new ≡ sets out.old at (replicate (padding_of at) 0)) }
{
    let n = padding(at);
    zeros(out, at, n);
    n
}
