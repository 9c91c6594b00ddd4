// Numbers that are known to be there, read without a test.
// Kept: three functions. Base's reads without a test have a `requires`, so they are not public; `read::<N>(s, at).unwrap()`, as edit has it, tests again.
ghost use Rattle.std.specs.Prelude.{◌≡◌, ◌+◌, ◌<◌, ◌≤◌, length};
ghost use Rattle.base.specs.Number.{get};

#[tactic(auto, using(base::proofs::Numbers::get_zero, base::proofs::Numbers::get_suc))]
pub(crate) fn byte_at(s: &[u8], at: usize) -> u32
    requires { at + 1 ≤ length s.now }
    ensures { (result ≡ get 1 s.now at) × (result < 256) }
{
    u32::from(s[at])
}

#[tactic(auto, using(base::proofs::Numbers::from_two))]
pub(crate) fn half_at(s: &[u8], at: usize) -> u32
    requires { at + 2 ≤ length s.now }
    ensures { (result ≡ get 2 s.now at) × (result < 65536) }
{
    u32::from(u16::from_le_bytes([s[at], s[at + 1]]))
}

#[tactic(auto, using(base::proofs::Numbers::from_four))]
pub(crate) fn word_at(s: &[u8], at: usize) -> u32
    requires { at + 4 ≤ length s.now }
    ensures { result ≡ get 4 s.now at }
{
    u32::from_le_bytes([s[at], s[at + 1], s[at + 2], s[at + 3]])
}

// An entry of an offset table.
pub(crate) fn offset_at(s: &[u8], at: usize) -> usize
    requires { at + 4 ≤ length s.now }
    ensures { (result ≡ get 4 s.now at) × (result < 4294967296) }
{
    word_at(s, at) as usize
}
