// The rooms of the programs: for a section on standard input, for the words and text bytes of its record, and for a section that is written
// (document 01, 'The round-trip program'), and for a piece of the input.
ghost use Rattle.std.specs.Prelude.{◌≡◌, length};

// The longest input.
pub const MOST: usize = 65536;

// The room for it: a byte more shows that it is longer.
pub const ROOM: usize = 65537;

// The words of the table.
pub const WORDS: usize = 16384;

// The text bytes of the table, and the longest output.
pub const BYTES: usize = 65536;

// What is read at once, and the longest argument.
pub const PIECE: usize = 4096;

// A room of N zeros. The programs call this in place of `[0; N]`, since a proof's search would go through all the zeros of such an array.
pub fn room<T: Copy + Default, const N: usize>() -> [T; N]
    ensures { length result ≡ N }
{
    [T::default(); N]
}
