// Words that are written for cells.
ghost use Rattle.std.specs.Prelude.{◌≡◌, ◌+◌, ◌*◌, ◌<◌, ◌≤◌, ◌^◌, ◌∷◌, [], is_some, length, map, nat_lt, replicate, slice_index, slice_set, if◌then◌else◌};
ghost use Rattle.cg_heap.specs.Stored.{answer_of, cell_length, fresh_cell, form_of, with_slot};
ghost use Rattle.cg_flat.specs.Flat.{answer_word, cell_of, cell_words, scalar_words, slot_words, written};

use crate::read::{answer_in, part};
use crate::span::Span;
use cg_heap::{Cell, Form, Fresh, Scalar};

// Writes a slot of a cell of slots; false, and nothing is changed, where there is no such slot.
pub(crate) fn write_slot(words: &mut Vec<u64>, span: Span, slot: u32, value: Scalar) -> bool
    requires { span.start + span.count ≤ length words.old.items }
    ensures answer { result ≡ is_some (with_slot slot value (cell_of words.old.items span)) }
    ensures words { words.new.items ≡ (if result then written (span.start + 2 * slot) (scalar_words value) words.old.items else words.old.items) }
{
    let has = match span.form {
        Form::Slots => (slot as usize) < span.count / 2,
        _ => false,
    };
    if has {
        write_scalar(words, span.start + 2 * slot as usize, value);
    }
    has
}

// Writes the two words of a scalar.
fn write_scalar(words: &mut Vec<u64>, at: usize, value: Scalar)
    requires { at + 1 < length words.old.items }
    ensures { words.new.items ≡ written at (scalar_words value) words.old.items }
{
    let (kind, number) = pair_of(value);
    words[at] = kind;
    words[at + 1] = number;
}

// The two words of a scalar.
fn pair_of(value: Scalar) -> (u64, u64)
    ensures { result.0 ∷ result.1 ∷ [] ≡ scalar_words value }
{
    match value {
        Scalar::Unset => (0, 0),
        Scalar::Word(number) => (1, number),
        Scalar::Address(address) => (2, address),
    }
}

// Writes an element; false, and nothing is changed, where there is no such element.
pub(crate) fn write_element(elements: &mut [u64], index: u32, value: u64) -> bool
    ensures answer { result ≡ nat_lt index (length elements.old) }
    ensures elements { elements.new ≡ (if result then slice_set elements.old index value else elements.old) }
{
    let has = (index as usize) < elements.len();
    if has {
        elements[index as usize] = value;
    }
    has
}

// Takes the first answer off; None, and nothing is changed, where there is none.
pub(crate) fn take_answer(words: &mut Vec<u64>, span: Span) -> Option<bool>
    requires { span.start + span.count ≤ length words.old.items }
    ensures answer { result ≡ answer_of 0 (cell_of words.old.items span) }
    ensures words { words.new.items ≡ (if is_some result then written span.start ((slice_index words.old.items span.start + 1) ∷ []) words.old.items else words.old.items) }
{
    let first = answer_in(span.form, part(words.as_slice(), span), 0)?;
    words[span.start] += 1;
    Some(first)
}

// The form of a cell to be made, and how many words it has.
pub(crate) fn fresh_shape(fresh: Fresh) -> (Form, usize)
    ensures form { result.0 ≡ form_of (fresh_cell fresh) }
    ensures count { result.1 ≡ length (cell_words (fresh_cell fresh)) }
    ensures small { result.1 < 2 ^ 34 }
    ensures short { cell_length (fresh_cell fresh) < 2 ^ 32 }
{
    match fresh {
        Fresh::Slots(count) => (Form::Slots, 2 * count as usize),
        Fresh::Words(count) => (Form::Words, count as usize),
    }
}

// The form of a cell, and how many words it has.
pub(crate) fn cell_shape(cell: &Cell) -> (Form, usize)
    requires { cell_length cell.now < 2 ^ 32 }
    ensures form { result.0 ≡ form_of cell.now }
    ensures count { result.1 ≡ length (cell_words cell.now) }
    ensures small { result.1 < 2 ^ 34 }
{
    match cell {
        Cell::Slots(slots) => (Form::Slots, 2 * slots.len()),
        Cell::Words(words) => (Form::Words, words.len()),
        Cell::Answers(answers) => (Form::Answers, answers.len() + 1),
    }
}

// Writes a cell's words.
pub(crate) fn write_cell(words: &mut Vec<u64>, at: usize, cell: &Cell)
    requires { at + length (cell_words cell.now) ≤ length words.old.items }
    ensures { words.new.items ≡ written at (cell_words cell.now) words.old.items }
{
    match cell {
        Cell::Slots(slots) => write_slots(words, at, slots.as_slice()),
        Cell::Words(elements) => write_elements(words, at, elements.as_slice()),
        Cell::Answers(answers) => write_answers(words, at, answers.as_slice()),
    }
}

// Writes two words for each slot.
fn write_slots(words: &mut Vec<u64>, at: usize, slots: &[Scalar])
    requires { at + 2 * length slots.now ≤ length words.old.items }
    ensures { words.new.items ≡ written at (slot_words slots.now) words.old.items }
{
    for index in 0..slots.len() {
        write_scalar(words, at + 2 * index, slots[index]);
    }
}

// Writes a word for each element.
fn write_elements(words: &mut Vec<u64>, at: usize, elements: &[u64])
    requires { at + length elements.now ≤ length words.old.items }
    ensures { words.new.items ≡ written at elements.now words.old.items }
{
    for index in 0..elements.len() {
        words[at + index] = elements[index];
    }
}

// Writes that no answer was taken, and a word for each answer.
fn write_answers(words: &mut Vec<u64>, at: usize, answers: &[bool])
    requires { at + (length answers.now + 1) ≤ length words.old.items }
    ensures { words.new.items ≡ written at (0 ∷ map answer_word answers.now) words.old.items }
{
    words[at] = 0;
    for index in 0..answers.len() {
        words[at + 1 + index] = word_of(answers[index]);
    }
}

// The word of an answer.
fn word_of(answer: bool) -> u64
    ensures { result ≡ answer_word answer }
{
    if answer { 1 } else { 0 }
}

// Writes so many words that are 0.
pub(crate) fn clear(words: &mut Vec<u64>, at: usize, count: usize)
    requires { at + count ≤ length words.old.items }
    ensures { words.new.items ≡ written at (replicate count 0) words.old.items }
{
    for index in 0..count {
        words[at + index] = 0;
    }
}
