// Rows: numbers of given widths, one after another, as the head of a part is. A head that is there is tested once and read without further
// tests; here is found which read is refused where one is short.
ghost use Rattle.std.specs.Prelude.{◌≡◌, map};
ghost use Rattle.base.specs.Number.{read_of};
ghost use Rattle.bflan.specs.inner.Row.{width_of, cut_in, sought_cut};

use crate::fault::Fault;
use base::cursor::{self, seek_to};
use base::error::PastEnd;

// A number of one or two bytes; any other width is four.
#[tactic(auto, unfolding(crate::specs::inner::Row::width_of))]
fn number_at(s: &[u8], at: usize, width: u8) -> Result<(u32, usize), PastEnd>
    ensures { result ≡ read_of (width_of width) s.now at }
{
    if width == 1 {
        return cursor::number_at::<u8>(s, at);
    }
    if width == 2 {
        return cursor::number_at::<u16>(s, at);
    }
    cursor::number_at::<u32>(s, at)
}

// The first read of a row at `at` that is refused. Where all its numbers are there, it is one of no bytes behind them.
#[tactic(auto, using(crate::proofs::reader::Rows::cut_here, crate::proofs::reader::Rows::cut_next, crate::proofs::reader::Rows::cut_none))]
pub(crate) fn cut(s: &[u8], at: usize, widths: &[u8]) -> Fault
    ensures { result ≡ cut_in (map width_of widths.now) s.now at }
{
    let mut p = at;
    for width in widths {
        match number_at(s, p, *width) {
            Err(e) => {
                return Fault::from(e);
            }
            Ok((_v, q)) => {
                p = q;
            }
        }
    }
    Fault::PastEnd(p, 0)
}

// The same for a row whose place is sought.
#[tactic(auto, unfolding(crate::specs::inner::Row::sought_cut))]
pub(crate) fn sought_cut(s: &[u8], base: usize, widths: &[u8]) -> Fault
    ensures { result ≡ sought_cut (map width_of widths.now) s.now base }
{
    match seek_to(s, base) {
        Err(e) => Fault::from(e),
        Ok(p) => cut(s, p, widths),
    }
}
