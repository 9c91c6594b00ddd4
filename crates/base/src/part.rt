// A part of a slice, by its start and its length.
ghost use Rattle.std.specs.Prelude.{◌≡◌};
ghost use Rattle.base.specs.Part.{part_of, part_ptr};

// The `len` bytes from `start` on; where they run past the end, the empty part at the slice's start.
#[tactic(auto, unfolding(crate::specs::Part::part_of, crate::specs::Part::part_ptr))]
pub fn part(s: &[u8], start: usize, len: usize) -> &[u8]
    ensures { (result.now ≡ part_of s.now start len) × (result.ref_ptr ≡ part_ptr s.entry start len) }
{
    let size = s.len();
    if start <= size {
        if len <= size - start {
            let end = start + len;
            return &s[start..end];
        }
    }
    &s[0..0]
}
