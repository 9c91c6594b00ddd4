// Functions of base, bflan and edit for a program in C or Rust. Each calls the function of the same name and has its contract, but for
// the eight `nnbfl_edit_*` and the six `nnbfl_field_*`, which call `edit` with the change and `field_at` with the place that their
// numbers say. A slice is passed as its address and its length, and an answer that is an enum comes back as numbers in a list. None
// asks anything of the caller but that the slices are there and that no byte that a call may change is in another of its slices.
// README.md has them as C sees them.
//
// Kept: C has a function for each field, and an answer comes back as numbers.
#![tactic(auto)]

mod answer;
mod change;
mod field;

ghost use Rattle.std.specs.Prelude.{◌≡◌, [], ◌∷◌, length};
ghost use Rattle.std.proofs.lemmas.List.Edits.{sets};
ghost use Rattle.base.specs.Outcome.{flat};
ghost use Rattle.base.specs.Text.{before_zero, first_fault};
ghost use Rattle.base.specs.Utf8.{decode, decoded_size, replacements, valid_up_to, well_formed};
ghost use Rattle.bflan.specs.Answer.{text_part};
ghost use Rattle.bflan.specs.declared.place.Place.TheVariants.{FrameCount, Looping, Layer, Target, Key, Value};
ghost use Rattle.bflan.specs.pai1.Calls.{reading, finding, writing};
ghost use Rattle.edit.specs.Editing.{undoing};
ghost use Rattle.capi.specs.Changed.{changed};
ghost use Rattle.capi.specs.FieldNumbers.{field_numbers};

use crate::answer::put;
use crate::change::change;
use crate::field::field;
use base::outcome::Answer;
use bflan::place::Place;

#[unsafe(no_mangle)]
pub extern "C" fn nnbfl_decoded_len(text: &[u8]) -> usize
    ensures { result ≡ decoded_size text.now }
{
    base::utf8::decoded_len(text)
}

#[unsafe(no_mangle)]
pub extern "C" fn nnbfl_decode_into(
    text: &[u8],
    out: &mut [u8],
    at: usize,
    replaced: &mut usize,
) -> usize
    ensures { (result ≡ decoded_size text.now) × (replaced.new ≡ replacements text.now)
        × (out.new ≡ sets out.old at (decode text.now)) }
{
    base::utf8::decode_into(text, out, at, replaced)
}

#[unsafe(no_mangle)]
pub extern "C" fn nnbfl_decode_plain(
    text: &[u8],
    out: &mut [u8],
    at: usize,
    replaced: &mut usize,
) -> usize
    ensures { (result ≡ decoded_size text.now) × (replaced.new ≡ replacements text.now)
        × (out.new ≡ sets out.old at (decode text.now)) }
{
    base::utf8::decode_plain(text, out, at, replaced)
}

#[unsafe(no_mangle)]
pub extern "C" fn nnbfl_well_formed(text: &[u8]) -> bool
    ensures { result ≡ well_formed text.now }
{
    base::utf8::well_formed(text)
}

#[unsafe(no_mangle)]
pub extern "C" fn nnbfl_first_ill(text: &[u8]) -> usize
    ensures { result ≡ valid_up_to text.now }
{
    base::utf8::first_ill(text)
}

#[unsafe(no_mangle)]
pub extern "C" fn nnbfl_first_zero(text: &[u8]) -> usize
    ensures { result ≡ before_zero text.now }
{
    base::text::first_zero(text)
}

#[unsafe(no_mangle)]
pub extern "C" fn nnbfl_first_fault(text: &[u8]) -> usize
    ensures { result ≡ first_fault text.now }
{
    base::text::first_fault(text)
}

#[tactic(auto, using(base::proofs::Outcomes::flat_first))]
#[unsafe(no_mangle)]
pub extern "C" fn nnbfl_read(
    section: &[u8],
    words: &mut [u32],
    texts: &mut [u8],
    answer: &mut [usize],
)
    ensures { (words.new ≡ (reading section.now words.old texts.old).1)
        × (texts.new ≡ (reading section.now words.old texts.old).2)
        × (answer.new ≡ sets answer.old 0 (flat 4 (reading section.now words.old texts.old).0)) }
{
    let r = bflan::read::read(section, words, texts);
    let n = r.numbers();
    put(answer, &[n.0, n.1, n.2, n.3]);
}

#[unsafe(no_mangle)]
pub extern "C" fn nnbfl_find_text(
    section: &[u8],
    text: usize,
    scratch: &mut [u8],
    answer: &mut [usize],
)
    ensures { (scratch.new ≡ (finding section.now text scratch.old).1)
        × (answer.new ≡ sets answer.old 0 (flat 5 (finding section.now text scratch.old).0)) }
{
    let r = bflan::find::find_text(section, text, scratch);
    let n = r.numbers();
    put(answer, &[n.0, n.1, n.2, n.3, n.4]);
}

// No reference goes out to C: the bytes of the part are stored from the output's start on, as far as it has places for them, and their
// number is returned.
#[unsafe(no_mangle)]
pub extern "C" fn nnbfl_text_part<'a>(
    section: &'a [u8],
    scratch: &'a [u8],
    source: usize,
    start: usize,
    len: usize,
    out: &mut [u8],
) -> usize
    ensures { (result ≡ length (text_part section.now scratch.now source start len))
        × (out.new ≡ sets out.old 0 (text_part section.now scratch.now source start len)) }
{
    let text = bflan::find::text_part(section, scratch, source, start, len);
    base::fill::copy(text, out, 0);
    text.len()
}

#[tactic(auto, using(base::proofs::Outcomes::flat_first))]
#[unsafe(no_mangle)]
pub extern "C" fn nnbfl_write(words: &[u32], texts: &[u8], out: &mut [u8], answer: &mut [usize])
    ensures { (out.new ≡ (writing words.now texts.now out.old).1)
        × (answer.new ≡ sets answer.old 0 (flat 3 (writing words.now texts.now out.old).0)) }
{
    let r = bflan::write::write(words, texts, out);
    let n = r.numbers();
    put(answer, &[n.0, n.1, n.2]);
}

// An edit is a function for each field that can be edited; a key's floats are given as their bits.
#[unsafe(no_mangle)]
pub extern "C" fn nnbfl_edit_frame_count(
    section: &mut [u8],
    journal: &mut [u32],
    count: usize,
    value: u32,
    answer: &mut [usize],
)
    ensures { (section.new, journal.new, answer.new) ≡ changed section.old journal.old count FrameCount (value ∷ []) answer.old }
{
    let place = Place::FrameCount;
    change(section, journal, count, place, 1, value, 0, 0, answer);
}

#[unsafe(no_mangle)]
pub extern "C" fn nnbfl_edit_looping(
    section: &mut [u8],
    journal: &mut [u32],
    count: usize,
    value: u32,
    answer: &mut [usize],
)
    ensures { (section.new, journal.new, answer.new) ≡ changed section.old journal.old count Looping (value ∷ []) answer.old }
{
    let place = Place::Looping;
    change(section, journal, count, place, 1, value, 0, 0, answer);
}

#[unsafe(no_mangle)]
pub extern "C" fn nnbfl_edit_layer(
    section: &mut [u8],
    journal: &mut [u32],
    count: usize,
    content: usize,
    info: usize,
    target: usize,
    value: u32,
    answer: &mut [usize],
)
    ensures { (section.new, journal.new, answer.new) ≡ changed section.old journal.old count (Layer content info target) (value ∷ []) answer.old }
{
    let place = Place::Layer(content, info, target);
    change(section, journal, count, place, 1, value, 0, 0, answer);
}

#[unsafe(no_mangle)]
pub extern "C" fn nnbfl_edit_target(
    section: &mut [u8],
    journal: &mut [u32],
    count: usize,
    content: usize,
    info: usize,
    target: usize,
    value: u32,
    answer: &mut [usize],
)
    ensures { (section.new, journal.new, answer.new) ≡ changed section.old journal.old count (Target content info target) (value ∷ []) answer.old }
{
    let place = Place::Target(content, info, target);
    change(section, journal, count, place, 1, value, 0, 0, answer);
}

#[unsafe(no_mangle)]
pub extern "C" fn nnbfl_edit_constant_key(
    section: &mut [u8],
    journal: &mut [u32],
    count: usize,
    content: usize,
    info: usize,
    target: usize,
    key: usize,
    value: u32,
    answer: &mut [usize],
)
    ensures { (section.new, journal.new, answer.new) ≡ changed section.old journal.old count (Key content info target key) (value ∷ []) answer.old }
{
    let place = Place::Key(content, info, target, key);
    change(section, journal, count, place, 1, value, 0, 0, answer);
}

#[unsafe(no_mangle)]
pub extern "C" fn nnbfl_edit_step_key(
    section: &mut [u8],
    journal: &mut [u32],
    count: usize,
    content: usize,
    info: usize,
    target: usize,
    key: usize,
    frame: u32,
    value: u32,
    answer: &mut [usize],
)
    ensures { (section.new, journal.new, answer.new) ≡ changed section.old journal.old count (Key content info target key) (frame ∷ value ∷ []) answer.old }
{
    let place = Place::Key(content, info, target, key);
    change(section, journal, count, place, 2, frame, value, 0, answer);
}

#[unsafe(no_mangle)]
pub extern "C" fn nnbfl_edit_hermite_key(
    section: &mut [u8],
    journal: &mut [u32],
    count: usize,
    content: usize,
    info: usize,
    target: usize,
    key: usize,
    frame: u32,
    value: u32,
    slope: u32,
    answer: &mut [usize],
)
    ensures { (section.new, journal.new, answer.new) ≡ changed section.old journal.old count (Key content info target key) (frame ∷ value ∷ slope ∷ []) answer.old }
{
    let place = Place::Key(content, info, target, key);
    change(
        section, journal, count, place, 3, frame, value, slope, answer,
    );
}

#[unsafe(no_mangle)]
pub extern "C" fn nnbfl_edit_value(
    section: &mut [u8],
    journal: &mut [u32],
    count: usize,
    content: usize,
    info: usize,
    datum: usize,
    list: usize,
    index: usize,
    value: u32,
    answer: &mut [usize],
)
    ensures { (section.new, journal.new, answer.new) ≡ changed section.old journal.old count (Value content info datum list index) (value ∷ []) answer.old }
{
    let place = Place::Value(content, info, datum, list, index);
    change(section, journal, count, place, 1, value, 0, 0, answer);
}

#[tactic(auto, using(base::proofs::Outcomes::flat_first))]
#[unsafe(no_mangle)]
pub extern "C" fn nnbfl_undo(
    section: &mut [u8],
    journal: &[u32],
    count: usize,
    answer: &mut [usize],
)
    ensures { (section.new ≡ (undoing section.old journal.now count).1)
        × (answer.new ≡ sets answer.old 0 (flat 3 (undoing section.old journal.now count).0)) }
{
    let r = edit::undo::undo(section, journal, count);
    let n = r.numbers();
    put(answer, &[n.0, n.1, n.2]);
}

// What stands at a place is a function for each field too.
#[unsafe(no_mangle)]
pub extern "C" fn nnbfl_field_frame_count(section: &[u8], answer: &mut [usize])
    ensures { answer.new ≡ sets answer.old 0 (field_numbers section.now FrameCount) }
{
    field(section, Place::FrameCount, answer);
}

#[unsafe(no_mangle)]
pub extern "C" fn nnbfl_field_looping(section: &[u8], answer: &mut [usize])
    ensures { answer.new ≡ sets answer.old 0 (field_numbers section.now Looping) }
{
    field(section, Place::Looping, answer);
}

#[unsafe(no_mangle)]
pub extern "C" fn nnbfl_field_layer(
    section: &[u8],
    content: usize,
    info: usize,
    target: usize,
    answer: &mut [usize],
)
    ensures { answer.new ≡ sets answer.old 0 (field_numbers section.now (Layer content info target)) }
{
    field(section, Place::Layer(content, info, target), answer);
}

#[unsafe(no_mangle)]
pub extern "C" fn nnbfl_field_target(
    section: &[u8],
    content: usize,
    info: usize,
    target: usize,
    answer: &mut [usize],
)
    ensures { answer.new ≡ sets answer.old 0 (field_numbers section.now (Target content info target)) }
{
    field(section, Place::Target(content, info, target), answer);
}

#[unsafe(no_mangle)]
pub extern "C" fn nnbfl_field_key(
    section: &[u8],
    content: usize,
    info: usize,
    target: usize,
    key: usize,
    answer: &mut [usize],
)
    ensures { answer.new ≡ sets answer.old 0 (field_numbers section.now (Key content info target key)) }
{
    field(section, Place::Key(content, info, target, key), answer);
}

#[unsafe(no_mangle)]
pub extern "C" fn nnbfl_field_value(
    section: &[u8],
    content: usize,
    info: usize,
    datum: usize,
    list: usize,
    index: usize,
    answer: &mut [usize],
)
    ensures { answer.new ≡ sets answer.old 0 (field_numbers section.now (Value content info datum list index)) }
{
    field(
        section,
        Place::Value(content, info, datum, list, index),
        answer,
    );
}
