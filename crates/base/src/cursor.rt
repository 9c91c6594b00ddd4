// A slice with a position in it that reading goes on from. Each method takes the cursor apart and calls a function on slice and position, which
// does the work. An answer holds the position after what was read, as that function's does, since who asks has the slice. The functions behind the
// methods make a cursor from plain parameters and read by it.
ghost use Rattle.std.specs.Prelude.{◌≡◌};
ghost use Rattle.base.specs.Number.{read_of};
ghost use Rattle.base.specs.Seek.{seek_of};
ghost use Rattle.base.specs.Text.{fixed_of, ended_of};

use crate::error::{PastEnd, TextError};
use crate::number::{Number, read};
use crate::seek::seek;
use crate::text::{ended_text, fixed_text};

#[derive(Clone, Copy)]
pub struct Cursor<'a> {
    pub data: &'a [u8],
    pub pos: usize,
}

impl<'a> Cursor<'a> {
    pub fn at(data: &'a [u8], pos: usize) -> Cursor<'a>
        ensures { (result.«data» ≡ «data».entry) × (result.pos ≡ pos) }
    {
        Cursor { data, pos }
    }

    pub fn read<N: Number>(self) -> Result<(u32, usize), PastEnd>
        ensures { result ≡ read_of N.WIDTH self.entry.«data».now self.entry.pos }
    {
        read::<N>(self.data, self.pos)
    }

    // A field of `len` bytes, read up to its first zero.
    pub fn read_fixed_string(self, len: usize) -> Result<(usize, usize), TextError>
        ensures { result ≡ fixed_of len self.entry.«data».now self.entry.pos }
    {
        fixed_text(self.data, self.pos, len)
    }

    pub fn read_null_terminated_string(self) -> Result<(usize, usize), TextError>
        ensures { result ≡ ended_of self.entry.«data».now self.entry.pos }
    {
        ended_text(self.data, self.pos)
    }

    pub fn seek(self, pos: usize) -> Result<usize, PastEnd>
        ensures { result ≡ seek_of self.entry.«data».now pos }
    {
        seek(self.data, pos)
    }
}

// The number of one, two or four bytes at a position.
pub fn number_at<N: Number>(data: &[u8], pos: usize) -> Result<(u32, usize), PastEnd>
    ensures { result ≡ read_of N.WIDTH «data».now pos }
{
    Cursor::at(data, pos).read::<N>()
}

// The text in a field of `len` bytes, and the text that ends at a zero.
pub fn fixed_string_at(data: &[u8], pos: usize, len: usize) -> Result<(usize, usize), TextError>
    ensures { result ≡ fixed_of len «data».now pos }
{
    Cursor::at(data, pos).read_fixed_string(len)
}

pub fn null_terminated_string_at(data: &[u8], pos: usize) -> Result<(usize, usize), TextError>
    ensures { result ≡ ended_of «data».now pos }
{
    Cursor::at(data, pos).read_null_terminated_string()
}

// A seek: from any position it leads to the same, so it starts at 0.
pub fn seek_to(data: &[u8], to: usize) -> Result<usize, PastEnd>
    ensures { result ≡ seek_of «data».now to }
{
    Cursor::at(data, 0).seek(to)
}
