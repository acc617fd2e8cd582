// What words stand for.
ghost use Rattle.std.specs.Prelude.{◌≡◌, ◌+◌, ◌≤◌, length, slice_get};
ghost use Rattle.cg_heap.specs.Stored.{answer_of, cell_length, slot_of};
ghost use Rattle.cg_flat.specs.Flat.{cell_in, scalar_in, slots_in, span_words};

use crate::span::Span;
use cg_heap::{Form, Scalar};

// A span's words.
pub(crate) fn part(words: &[u64], span: Span) -> &[u64]
    requires { span.start + span.count ≤ length words.now }
    ensures { result.now ≡ span_words words.now span }
{
    &words[span.start..span.start + span.count]
}

// How many slots, elements or answers the cell has that stands in these words.
pub(crate) fn length_in(form: Form, words: &[u64]) -> usize
    ensures { result ≡ cell_length (cell_in form words.now) }
{
    match form {
        Form::Slots => words.len() / 2,
        Form::Words => words.len(),
        Form::Answers => match words.split_first() {
            Some((taken, all)) => all.len().saturating_sub(*taken as usize),
            None => 0,
        },
    }
}

// A slot as it stands, or an element as `Word`; None where there is no such slot or element.
pub(crate) fn slot_in(form: Form, words: &[u64], slot: u32) -> Option<Scalar>
    ensures { result ≡ slot_of slot (cell_in form words.now) }
{
    match form {
        Form::Slots => pair_at(words, slot),
        Form::Words => match words.get(slot as usize).copied() {
            Some(word) => Some(Scalar::Word(word)),
            None => None,
        },
        Form::Answers => None,
    }
}

// The slot of which these are two of the words; None where they aren't there.
fn pair_at(words: &[u64], slot: u32) -> Option<Scalar>
    ensures { result ≡ slice_get (slots_in words.now) slot }
{
    let at = 2 * slot as usize;
    if at + 1 < words.len() {
        Some(scalar(words[at], words[at + 1]))
    } else {
        None
    }
}

// The scalar of which these are the two words.
fn scalar(kind: u64, number: u64) -> Scalar
    ensures { result ≡ scalar_in kind number }
{
    match kind {
        0 => Scalar::Unset,
        1 => Scalar::Word(number),
        _ => Scalar::Address(number),
    }
}

// The answer at an index among those that are left; None where there is none.
pub(crate) fn answer_in(form: Form, words: &[u64], index: u32) -> Option<bool>
    ensures { result ≡ answer_of index (cell_in form words.now) }
{
    let Form::Answers = form else {
        return None;
    };
    let (taken, all) = words.split_first()?;
    let left = all.get(*taken as usize..)?;
    let answer = left.get(index as usize)?;
    Some(*answer == 1)
}
