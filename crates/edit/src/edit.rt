// Editing one field of a section.
ghost use Rattle.std.specs.Prelude.{◌≡◌, true, [], ◌∷◌, ◌+◌, ◌*◌, ◌<◌, ◌≤◌, length};
ghost use Rattle.std.proofs.lemmas.List.Edits.{sets};
ghost use Rattle.bflan.specs.Layout.{written, row};
ghost use Rattle.bflan.specs.pai1.Places.{spot, widths, total, fit};
ghost use Rattle.edit.specs.Editing.{edit_error, of_edit_error, of_editing, place_of, values_of, old_at, at_spot, editing};
ghost use Rattle.edit.specs.Format.{pai1};
ghost use Rattle.edit.specs.Journal.{entry_words, entry_of};
ghost use Rattle.edit.specs.inner.Packing.{values_in};

use crate::journal::{ENTRY_WORDS, Entry, Packed, packed_at, put_entry, put_packed};
use crate::key::NewKey;
use crate::spot::{field_as, spot_at, way_of};
use crate::values::{Values, fits, place_of, size_of, values_of};
use base::float::{Binary32, Hermite, HermiteBits, write_f32, write_hermite};
use base::number::write;
use base::outcome::{Answer, Numbers};
use bflan::fault::Fault;
use bflan::place::{Field, LocateError};

// A field, its place and its new value. Places count from 0: content, info, target, key; or content, info, datum, list, value.
#[derive(Clone, Copy)]
pub enum Change {
    FrameCount(u32),
    Looping(u32),
    Layer(usize, usize, usize, u32),
    Target(usize, usize, usize, u32),
    Key(usize, usize, usize, usize, NewKey),
    // The new value is a binary32's bits.
    Value(usize, usize, usize, usize, usize, u32),
}

// Why an edit is refused. It has changed nothing then.
#[derive(Clone, Copy)]
pub enum EditError {
    // The section's length, above the limit.
    TooLong(usize),
    // The section does not read.
    Fault(Fault),
    NoSuchPlace,
    Unfit,
    // The journal's capacity.
    JournalFull(usize),
}

impl From<LocateError> for EditError {
    ghost from_gives = { λ error given. given ≡ edit_error error };

    #[tactic(auto, unfolding(crate::specs::Editing::edit_error))]
    fn from(error: LocateError) -> EditError {
        match error {
            LocateError::TooLong(size) => EditError::TooLong(size),
            LocateError::Fault(fault) => EditError::Fault(fault),
            LocateError::NoSuchPlace => EditError::NoSuchPlace,
        }
    }
}

impl Answer for EditError {
    ghost outcome = { of_edit_error };

    #[tactic(auto, unfolding(base::specs::Outcome::flat))]
    fn numbers(self) -> Numbers {
        match self {
            EditError::TooLong(size) => Numbers(2, size, 0, 0, 0),
            EditError::Fault(f) => f.numbers(),
            EditError::NoSuchPlace => Numbers(10, 0, 0, 0, 0),
            EditError::Unfit => Numbers(11, 0, 0, 0, 0),
            EditError::JournalFull(most) => Numbers(12, most, 0, 0, 0),
        }
    }
}

// The entry of the field at `at`, stored as entry `count`.
#[tactic(auto, using(crate::proofs::Changes::entry_kept))]
fn keep_old(section: &[u8], journal: &mut [u32], count: usize, at: usize, f: Field)
    requires { (length section.now ≤ 16777216) × (at + total (widths f) ≤ length section.now) × (entry_words * count + entry_words ≤ length journal.old) }
    ensures { journal.new ≡ sets journal.old (entry_words * count) (entry_of at (old_at section.now at (total (widths f)))) }
{
    let n = size_of(f);
    let old = packed_at(section, at, n);
    put_entry(
        journal,
        count,
        Entry {
            at: u32::try_from(at).unwrap(),
            count: n,
            old,
        },
    );
}

// The field at `at`, with values that it takes: one of a key is a Constant key's, two are a Step key's, and three a Hermite key's.
#[tactic(auto, using(crate::proofs::Changes::bytes_packed))]
fn write_field(section: &mut [u8], at: usize, f: Field, v: Values)
    requires { (at + total (widths f) ≤ length section.old) × (fit f (values_in v) ≡ true) }
    ensures { section.new ≡ sets section.old at (written (row (widths f) (values_in v))) }
{
    match v {
        Values::One(a) => match f {
            Field::Key(_curve) => write_f32(section, at, Binary32::from_bits(a)),
            _ => put_packed(section, at, size_of(f), Packed::from(v)),
        },
        Values::Two(a, b) => {
            write_f32(section, at, Binary32::from_bits(a));
            write::<u16>(section, at + 4, b);
        }
        Values::Three(a, b, c) => {
            write_hermite(section, at, Hermite::from_bits(HermiteBits(a, b, c)))
        }
    }
}

#[tactic(auto, unfolding(crate::specs::Editing::at_spot, crate::specs::Journal::capacity))]
fn change_at(
    section: &mut [u8],
    journal: &mut [u32],
    count: usize,
    at: usize,
    f: Field,
    v: Values,
) -> Result<usize, EditError>
    requires { (length section.old ≤ 16777216) × (at + total (widths f) ≤ length section.old) }
    ensures { (of_editing result, section.new, journal.new) ≡ at_spot section.old journal.old count (values_in v) (spot at f) }
{
    if fits(f, v) {
        let most = journal.len() / ENTRY_WORDS;
        if most <= count {
            return Err(EditError::JournalFull(most));
        }
        keep_old(section, journal, count, at, f);
        write_field(section, at, f, v);
        return Ok(count + 1);
    }
    Err(EditError::Unfit)
}

// Makes a change, and answers the new count of journal entries.
// Kept: the journal and its count as two parameters here and in `undo`. A struct would hold the journal as `&mut`, which `undo` does not ask for.
pub fn edit(
    section: &mut [u8],
    journal: &mut [u32],
    count: usize,
    change: Change,
) -> Result<usize, EditError>
    ensures { (of_editing result, section.new, journal.new) ≡ editing pai1 section.old journal.old count (place_of change) (values_of change) }
{
    let v = values_of(change);
    let w = way_of(place_of(change));
    let kind = w.kind;
    let spot = spot_at(section, kind, w.content, w.info, w.target, w.key, w.value)?;
    let f = field_as(spot.kind, spot.number);
    change_at(section, journal, count, spot.at, f, v)
}
