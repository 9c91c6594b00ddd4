// An answer's numbers in a list.
ghost use Rattle.std.specs.Prelude.{◌≡◌};
ghost use Rattle.std.proofs.lemmas.List.Edits.{sets};

// These numbers from the list's start on, as far as it has places for them.
pub(crate) fn put(list: &mut [usize], numbers: &[usize])
    ensures { list.new ≡ sets list.old 0 numbers.now }
{
    // Kept: tried `list.iter_mut().zip(numbers)`. Nothing is known of a list's values after an adapter of `iter_mut`, and its goals stay open.
    for (at, number) in numbers.iter().enumerate() {
        if at < list.len() {
            list[at] = *number;
        }
    }
}
