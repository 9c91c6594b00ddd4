// Parts behind the table of their offsets.
ghost use Rattle.std.specs.Prelude.{◌≡◌, ◌+◌, ◌-◌, ◌*◌, ◌≤◌};
ghost use Rattle.bflan.specs.Judge.{J, times};
ghost use Rattle.bflan.specs.Layout.{Layout};
ghost use Rattle.bflan.specs.inner.Pen.{HasNext, behind, listed};

use crate::writer::Writer;
use crate::writer::field::distance;
use base::placeholder::{patch_u32, placeholder_of, write_placeholders_u32};

// A part of a record that was judged: how it is judged, its layout, and how it is written.
pub(crate) trait Part: Copy {
    ghost Value: { Type 0 };

    ghost lay: { Value → Layout };

    ghost judged: { Self → J Value };

    // The part from the next word on.
    fn put(self, w: &mut Writer<'_, '_>)
        requires { HasNext lay (judged self) w.old }
        ensures { w.new ≡ behind lay (judged self) w.old };
}

impl Writer<'_, '_> {
    // `n` parts from the next word on, behind the table of their offsets, which count from `base`.
    pub(crate) fn put_listed<P: Part>(&mut self, part: P, n: usize, base: usize)
        requires { (base ≤ self.old.at) × HasNext (listed P.lay (self.old.at + 4 * n - base)) (times n (P.judged part)) self.old }
        ensures { self.new ≡ behind (listed P.lay (self.old.at + 4 * n - base)) (times n (P.judged part)) self.old }
    {
        let table = write_placeholders_u32(self.out, self.at, n);
        self.at += 4 * n;
        for i in 0..n {
            patch_u32(self.out, placeholder_of(table, i), distance(base, self.at));
            part.put(self);
        }
    }
}
