// A position that reading is to go on from.
ghost use Rattle.std.specs.Prelude.{◌≡◌};
ghost use Rattle.base.specs.Seek.{seek_of};

use crate::error::PastEnd;

// A seek to the slice's end is fine. Beyond it, the offset is the slice's length, and what was requested is the excess.
#[tactic(auto, using(crate::proofs::Seeks::seek_there, crate::proofs::Seeks::seek_over))]
pub fn seek(s: &[u8], to: usize) -> Result<usize, PastEnd>
    ensures { result ≡ seek_of s.now to }
{
    let size = s.len();
    let excess = to.saturating_sub(size);
    if excess < 1 {
        return Ok(to);
    }
    Err(PastEnd {
        offset: size,
        requested: excess,
    })
}
