// Parts that stand at the offsets of a table.
ghost use Rattle.std.specs.Prelude.{◌≡◌, List, ℕ, ◌+◌, ◌*◌, ◌≤◌, length};
ghost use Rattle.base.specs.Run.{numbers_at};
ghost use Rattle.bflan.specs.Reader.{P, Item, visit};
ghost use Rattle.bflan.specs.inner.Walk.{walk_of, walked};

use crate::reader::offset::offset_at;
use crate::reader::tally::{Tables, Walk};
use crate::section::Section;

// A kind of part: how the one that starts at a place is read (`part`), and the farthest place that it is asked for at (`most`).
pub(crate) trait Part {
    ghost part: { Self → ℕ → P (List Item) };

    ghost most: { ℕ };

    fn read_at(&self, s: Section, base: usize, into: &mut Tables<'_>) -> Walk
        requires { base ≤ most }
        ensures { (i : ℕ) → walked result into.new ≡ walk_of s.entry.bytes.now into.old (part self.now base s.entry.bytes.now i) };
}

// The parts at the `n` offsets of the table at `table`, which count from `base`.
#[tactic(auto, using(crate::proofs::reader::Walks::visit_end, crate::proofs::reader::Walks::walking_end))]
pub(crate) fn visit<Q: Part>(
    kind: &Q,
    s: Section,
    base: usize,
    table: usize,
    n: usize,
    pos: usize,
    into: &mut Tables<'_>,
) -> Walk
    requires { (base ≤ 8589934592) × (base + 4294967295 ≤ Q.most) × (table + 4 * n ≤ length s.bytes.now) }
    ensures { walked result into.new ≡ walk_of s.entry.bytes.now into.old (visit base (Q.part kind.now) (numbers_at n s.entry.bytes.now table) s.entry.bytes.now pos) }
{
    let mut p = pos;
    for i in 0..n {
        let off = offset_at(s.bytes, table + 4 * i);
        p = kind.read_at(s, base + off, into)?;
    }
    Ok(p)
}
