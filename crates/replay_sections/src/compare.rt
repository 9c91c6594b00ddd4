// Marks, which a place of a table holds before a call and must still hold behind it if the call has no business there; and the
// comparison of tables with the sample.

// The longest table of words.
pub(crate) const WORDS: usize = 256;

// The longest table of text bytes.
pub(crate) const TEXTS: usize = 320;

// The places before a table, and at least as many are behind it.
pub(crate) const BEFORE: usize = 8;

// What a table has.
pub(crate) trait Marked: Copy + PartialEq {
    // The mark of a place: no two places near each other have the same.
    fn mark(place: usize) -> Self;
}

impl Marked for u32 {
    fn mark(place: usize) -> u32 {
        let [low, high, ..] = place.to_le_bytes();
        2779054080 + u32::from(u16::from_le_bytes([low, high]))
    }
}

impl Marked for u8 {
    fn mark(place: usize) -> u8 {
        let [low, ..] = place.to_le_bytes();
        low.wrapping_mul(7).wrapping_add(165)
    }
}

// Marks all places.
pub(crate) fn mark<T: Marked>(places: &mut [T]) {
    for (i, place) in places.iter_mut().enumerate() {
        *place = T::mark(i);
    }
}

// Whether places have their marks; `first` of them are before these.
fn has_marks<T: Marked>(places: &[T], first: usize) -> bool {
    places
        .iter()
        .enumerate()
        .all(|(i, place)| *place == T::mark(first.wrapping_add(i)))
}

// Whether the table among these places begins with the values, and all other places have their marks.
pub(crate) fn is_right<T: Marked>(places: &[T], values: &[T]) -> bool {
    let Some((before, table)) = places.split_at_checked(BEFORE) else {
        return false;
    };
    let Some((begin, behind)) = table.split_at_checked(values.len()) else {
        return false;
    };
    has_marks(before, 0) && begin == values && has_marks(behind, BEFORE.wrapping_add(values.len()))
}
