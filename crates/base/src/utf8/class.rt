// The class of each byte: the row of Table 3-7 of the Unicode Standard that it begins, from 1; of one that begins none 10, 11 or 12 where it
// is 80..8F, 90..9F or A0..BF, and else 0.
ghost use Rattle.std.specs.Prelude.{◌≡◌};
ghost use Rattle.base.specs.Utf8.{byte_class, Classes};

// Kept: a class is a number and no enum, since it is the entry of one table (document 01 names a table of 256 byte classes) and the index of the other.
// The compiler builds a table wherever the code names it. So a function that needs many classes names it once and passes it on.
// Kept: a static, which nothing has to pass on, was tried, and a table within the struct. With a static ill-formed texts are decoded 5 to 10 % slower;
// a table within the struct is built and then moved, and short texts are decoded 15 to 25 % slower.
pub(crate) const CLASSES: [u8; 256] = [
    1, 1, 1, 1, 1, 1, 1, 1, 1, 1, 1, 1, 1, 1, 1, 1, 1, 1, 1, 1, 1, 1, 1, 1, 1, 1, 1, 1, 1, 1, 1, 1,
    1, 1, 1, 1, 1, 1, 1, 1, 1, 1, 1, 1, 1, 1, 1, 1, 1, 1, 1, 1, 1, 1, 1, 1, 1, 1, 1, 1, 1, 1, 1, 1,
    1, 1, 1, 1, 1, 1, 1, 1, 1, 1, 1, 1, 1, 1, 1, 1, 1, 1, 1, 1, 1, 1, 1, 1, 1, 1, 1, 1, 1, 1, 1, 1,
    1, 1, 1, 1, 1, 1, 1, 1, 1, 1, 1, 1, 1, 1, 1, 1, 1, 1, 1, 1, 1, 1, 1, 1, 1, 1, 1, 1, 1, 1, 1, 1,
    10, 10, 10, 10, 10, 10, 10, 10, 10, 10, 10, 10, 10, 10, 10, 10, 11, 11, 11, 11, 11, 11, 11, 11,
    11, 11, 11, 11, 11, 11, 11, 11, 12, 12, 12, 12, 12, 12, 12, 12, 12, 12, 12, 12, 12, 12, 12, 12,
    12, 12, 12, 12, 12, 12, 12, 12, 12, 12, 12, 12, 12, 12, 12, 12, 0, 0, 2, 2, 2, 2, 2, 2, 2, 2,
    2, 2, 2, 2, 2, 2, 2, 2, 2, 2, 2, 2, 2, 2, 2, 2, 2, 2, 2, 2, 2, 2, 3, 4, 4, 4, 4, 4, 4, 4, 4, 4,
    4, 4, 4, 5, 6, 6, 7, 8, 8, 8, 9, 0, 0, 0, 0, 0, 0, 0, 0, 0, 0, 0,
];

// A table of the classes that is there.
#[derive(Clone, Copy)]
pub(crate) struct ClassTable<'a> {
    classes: &'a [u8; 256],
    ghost hold: { Classes classes.now },
}

impl<'a> ClassTable<'a> {
    pub(crate) fn new(classes: &'a [u8; 256]) -> ClassTable<'a>
        requires { Classes classes.now }
    {
        ClassTable { classes }
    }

    pub(crate) fn class(self, b: u8) -> u8
        ensures { result ≡ byte_class b }
    {
        self.classes[usize::from(b)]
    }
}
