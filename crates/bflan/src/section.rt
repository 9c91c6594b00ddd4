// A section's bytes: no more than the longest section has.
ghost use Rattle.std.specs.Prelude.{◌≤◌, length};

#[derive(Clone, Copy)]
pub(crate) struct Section<'a> {
    pub bytes: &'a [u8],
    pub ghost short: { length bytes.now ≤ 16777216 },
}
