// What stands at a place, as numbers.
ghost use Rattle.std.specs.Prelude.{◌≡◌};
ghost use Rattle.std.proofs.lemmas.List.Edits.{sets};
ghost use Rattle.capi.specs.FieldNumbers.{field_numbers};

use crate::answer::put;
use base::outcome::Answer;
use bflan::place::Place;
use edit::field::field_at;

#[tactic(auto, using(edit::proofs::FieldAt::counted_field), unfolding(crate::specs::FieldNumbers::field_numbers))]
pub(crate) fn field(section: &[u8], place: Place, answer: &mut [usize])
    ensures { answer.new ≡ sets answer.old 0 (field_numbers section.now place) }
{
    let n = field_at(section, place).numbers();
    put(answer, &[n.0, n.1, n.2, n.3, n.4]);
}
