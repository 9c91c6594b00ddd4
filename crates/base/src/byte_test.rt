// A test of bytes, made of each of a run.
ghost use Rattle.std.specs.Prelude.{ℕ, Bool, ◌≡◌, ◌+◌, ◌≤◌, length, take, drop};
ghost use Rattle.base.specs.Text.{every, not_zero, ascii, plain};

pub(crate) trait ByteTest {
    ghost passed: { ℕ → Bool };

    fn passes(b: u8) -> bool
        ensures { result ≡ passed b };
}

pub(crate) struct NotZero;

impl ByteTest for NotZero {
    ghost passed = { not_zero };

    fn passes(b: u8) -> bool {
        b != 0
    }
}

pub(crate) struct Ascii;

impl ByteTest for Ascii {
    ghost passed = { ascii };

    fn passes(b: u8) -> bool {
        b < 128
    }
}

// ASCII and not zero: both tests are one comparison of vectors, which gives a mask at once. A text that was found by its zero has no other.
pub(crate) struct Plain;

impl ByteTest for Plain {
    ghost passed = { plain };

    fn passes(b: u8) -> bool {
        (b != 0) & (b < 128)
    }
}

// Whether each of the `n` bytes from `at` on passes. There is no branch on the way, so that the loop runs on whole vectors where `n` is a constant.
#[tactic(auto, using(crate::proofs::Tests::every_turn))]
pub(crate) fn every_in<T: ByteTest>(s: &[u8], at: usize, n: usize) -> bool
    requires { at + n ≤ length s.now }
    ensures { result ≡ every T.passed (take n (drop at s.now)) }
{
    let mut all = true;
    for k in 0..n {
        all = all & T::passes(s[at + k]);
    }
    all
}
