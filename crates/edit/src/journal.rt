// The journal: five words an entry. The old bytes of a field stand in three of them.
ghost use Rattle.std.specs.Prelude.{◌≡◌, true, ◌&&◌, length, take, drop, ◌+◌, ◌*◌, ◌<◌, ◌≤◌};
ghost use Rattle.std.proofs.lemmas.List.Edits.{sets};
ghost use Rattle.base.specs.Number.{get};
ghost use Rattle.edit.specs.Journal.{entry_words, entry_at, field_size, all_zero};
ghost use Rattle.edit.specs.inner.Packing.{unpacked, packed, entry_list};

use base::number::{Number, read, write};

// Up to twelve bytes as little-endian words.
#[derive(Clone, Copy)]
pub struct Packed {
    pub a: u32,
    pub b: u32,
    pub c: u32,
}

#[derive(Clone, Copy)]
pub struct Entry {
    // The byte offset and the byte count.
    pub at: u32,
    pub count: u32,
    pub old: Packed,
}

// The words of an entry.
pub(crate) const ENTRY_WORDS: usize = 5;

// Whether `n` is the size of a field, and the bytes behind the first `n` are zeros.
#[tactic(auto, unfolding(crate::specs::inner::Packing::unpacked, crate::specs::Journal::field_size, crate::specs::Journal::all_zero, base::specs::Number::le))]
pub(crate) fn filled(n: u32, p: Packed) -> bool
    ensures { result ≡ field_size n && all_zero (drop n (unpacked p)) }
{
    match n {
        1 => (p.a < 256) & ((p.b == 0) & (p.c == 0)),
        2 => (p.a < 65536) & ((p.b == 0) & (p.c == 0)),
        4 => (p.b == 0) & (p.c == 0),
        6 => (p.b < 65536) & (p.c == 0),
        12 => true,
        _ => false,
    }
}

// The first `n` bytes, stored from `at` on. (Compiled into `undo` and into the edit: an undo takes a tenth longer with a call.)
// Kept: a match over the count. It is known only when this runs, and `write` takes the width as a type. `filled` and `packed_at` go by it in the same way.
#[tactic(auto, using(crate::proofs::Calls::packed_1, crate::proofs::Calls::packed_2, crate::proofs::Calls::packed_4, crate::proofs::Calls::packed_6, crate::proofs::Calls::packed_12, crate::proofs::Calls::size_twelve))]
#[inline(always)]
pub(crate) fn put_packed(out: &mut [u8], at: usize, n: u32, p: Packed)
    requires { (field_size n ≡ true) × (at < length out.old) }
    ensures { out.new ≡ sets out.old at (take n (unpacked p)) }
{
    match n {
        1 => write::<u8>(out, at, p.a),
        2 => write::<u16>(out, at, p.a),
        4 => write::<u32>(out, at, p.a),
        6 => {
            write::<u32>(out, at, p.a);
            write::<u16>(out, at + 4, p.b);
        }
        _ => {
            write::<u32>(out, at, p.a);
            write::<u32>(out, at + 4, p.b);
            write::<u32>(out, at + 8, p.c);
        }
    }
}

// Entry `n`.
#[tactic(auto, using(crate::proofs::Calls::entry_read), unfolding(crate::specs::inner::Packing::entry_list))]
pub(crate) fn entry_at(journal: &[u32], n: usize) -> Entry
    requires { entry_words * n + entry_words ≤ length journal.now }
    ensures { entry_list result ≡ entry_at journal.now n }
{
    let i = ENTRY_WORDS * n;
    Entry {
        at: journal[i],
        count: journal[i + 1],
        old: Packed {
            a: journal[i + 2],
            b: journal[i + 3],
            c: journal[i + 4],
        },
    }
}

// A number that is known to be there: base's read, which cannot fail here.
#[tactic(auto, using(base::proofs::Numbers::read_there))]
pub(crate) fn number_at<N: Number>(s: &[u8], at: usize) -> u32
    requires { at + N.WIDTH ≤ length s.now }
    ensures { result ≡ get N.WIDTH s.now at }
{
    read::<N>(s, at).unwrap().0
}

// The `n` bytes from `at` on.
#[tactic(auto, using(crate::proofs::Calls::size_twelve, crate::proofs::Changes::old_1, crate::proofs::Changes::old_2, crate::proofs::Changes::old_4, crate::proofs::Changes::old_6, crate::proofs::Changes::old_12))]
pub(crate) fn packed_at(s: &[u8], at: usize, n: u32) -> Packed
    requires { (field_size n ≡ true) × (at + n ≤ length s.now) }
    ensures { result ≡ packed (take n (drop at s.now)) }
{
    match n {
        1 => Packed {
            a: number_at::<u8>(s, at),
            b: 0,
            c: 0,
        },
        2 => Packed {
            a: number_at::<u16>(s, at),
            b: 0,
            c: 0,
        },
        4 => Packed {
            a: number_at::<u32>(s, at),
            b: 0,
            c: 0,
        },
        6 => Packed {
            a: number_at::<u32>(s, at),
            b: number_at::<u16>(s, at + 4),
            c: 0,
        },
        _ => Packed {
            a: number_at::<u32>(s, at),
            b: number_at::<u32>(s, at + 4),
            c: number_at::<u32>(s, at + 8),
        },
    }
}

// Entry `n`, stored.
#[tactic(auto, unfolding(crate::specs::inner::Packing::entry_list))]
pub(crate) fn put_entry(journal: &mut [u32], n: usize, e: Entry)
    requires { entry_words * n + entry_words ≤ length journal.old }
    ensures { journal.new ≡ sets journal.old (entry_words * n) (entry_list e) }
{
    let i = ENTRY_WORDS * n;
    let i1 = i + 1;
    let i2 = i1 + 1;
    let i3 = i2 + 1;
    let i4 = i3 + 1;
    let old = e.old;
    journal[i] = e.at;
    journal[i1] = e.count;
    journal[i2] = old.a;
    journal[i3] = old.b;
    journal[i4] = old.c;
}
