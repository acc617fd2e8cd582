// Cells as a store holds them.
ghost use Rattle.std.specs.Prelude.{◌≡◌, is_some, length, nat_lt, slice_set};
ghost use Rattle.std.specs.Option.{unwrap_or};
ghost use Rattle.cg_heap.specs.Stored.{answer_of, cell_length, form_of, slot_of, with_element, with_slot, without_answer};

use crate::{Cell, Form, Scalar};
use cg_base::Items;
use std::marker::Model;

// A cell, which contracts see without the answers that were taken: they stay in its list, so that to take one moves
// no other.
pub(crate) struct HeldCell {
    cell: Cell,
    taken: usize,
}

impl Drop for HeldCell {
    fn drop(self) {
        let HeldCell { cell, taken: _ } = self;
        drop(cell);
    }
}

impl Model for HeldCell {
    ghost use Rattle.cg_heap.specs.declared.cell.Cell.{Cell};

    ghost Value = { Cell };

    ghost use Rattle.cg_heap.specs.Left.{left};

    ghost view = { λ held. left held.taken held.cell };
}

impl HeldCell {
    // A cell of which no answer was taken.
    pub(crate) fn new(cell: Cell) -> HeldCell
        ensures { result ≡ cell }
    {
        HeldCell { cell, taken: 0 }
    }

    // How many slots, elements or answers it has.
    pub(crate) fn len(&self) -> usize
        ensures { result ≡ cell_length self.now }
    {
        match &self.cell {
            Cell::Slots(slots) => slots.len(),
            Cell::Words(words) => words.len(),
            Cell::Answers(answers) => answers.len().saturating_sub(self.taken),
        }
    }

    // What it holds.
    pub(crate) fn form(&self) -> Form
        ensures { result ≡ form_of self.now }
    {
        match &self.cell {
            Cell::Slots(_) => Form::Slots,
            Cell::Words(_) => Form::Words,
            Cell::Answers(_) => Form::Answers,
        }
    }

    // A slot as it stands, or an element as `Word`; None where there is no such slot or element.
    pub(crate) fn get(&self, slot: u32) -> Option<Scalar>
        ensures { result ≡ slot_of slot self.now }
    {
        match &self.cell {
            Cell::Slots(slots) => slots.get(slot as usize).copied(),
            Cell::Words(words) => match words.get(slot as usize) {
                Some(word) => Some(Scalar::Word(*word)),
                None => None,
            },
            Cell::Answers(_) => None,
        }
    }

    // The answer at an index among those that are left; None where there is none.
    pub(crate) fn answer(&self, index: u32) -> Option<bool>
        ensures { result ≡ answer_of index self.now }
    {
        match &self.cell {
            Cell::Answers(answers) => {
                let left = answers.as_slice().get(self.taken..)?;
                left.get(index as usize).copied()
            }
            _ => None,
        }
    }

    // Writes a slot of a cell of slots; false, and nothing is changed, where there is no such slot.
    pub(crate) fn set_field(&mut self, slot: u32, value: Scalar) -> bool
        ensures answer { result ≡ is_some (with_slot slot value self.old) }
        ensures cell { self.new ≡ unwrap_or (with_slot slot value self.old) self.old }
    {
        match &mut self.cell {
            Cell::Slots(slots) => put(slots.as_mut_slice(), slot, value),
            _ => false,
        }
    }

    // Writes an element of a cell of elements; false, and nothing is changed, where there is no such element.
    pub(crate) fn set_element(&mut self, index: u32, value: u64) -> bool
        ensures answer { result ≡ is_some (with_element index value self.old) }
        ensures cell { self.new ≡ unwrap_or (with_element index value self.old) self.old }
    {
        match &mut self.cell {
            Cell::Words(words) => put(words.as_mut_slice(), index, value),
            _ => false,
        }
    }

    // Takes the first answer off; None, and nothing is changed, where there is none.
    pub(crate) fn pop(&mut self) -> Option<bool>
        ensures answer { result ≡ answer_of 0 self.old }
        ensures cell { self.new ≡ unwrap_or (without_answer self.old) self.old }
    {
        let Cell::Answers(answers) = &self.cell else {
            return None;
        };
        if self.taken >= answers.len() {
            return None;
        }
        let first = answers.get(self.taken).copied();
        self.taken += 1;
        first
    }
}

// Writes an item; false, and nothing is changed, where there is no such item.
fn put<T: Copy>(items: &mut [T], at: u32, value: T) -> bool
    ensures answer { result ≡ nat_lt at (length items.old) }
    ensures items { items.new ≡ slice_set items.old at value }
{
    if at as usize >= items.len() {
        return false;
    }
    items[at as usize] = value;
    true
}
