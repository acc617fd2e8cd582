// Stores.
ghost use Rattle.std.specs.Prelude.{◌≡◌, ◌+◌, ◌<◌, ◌≤◌, ◌^◌, is_some, None, IfOk, OnOk, OnErr};
ghost use Rattle.std.specs.Option.{option_map};
ghost use Rattle.cg_heap.specs.Stored.{Stored, IsSound, answer_of, asked_of, cell_at, cell_length, changed, form_of, slot_of, with_cell, with_element, with_fresh, with_slot, without_answer, without_cell};

use crate::{Cell, Form, Fresh, Scalar};
use cg_base::Memory;

/// A heap's cells by their addresses, and a number `top` that is at least every address ever held (docs/LANGUAGE.md, "Layout").
/// Only `add` and `place` take memory.
pub trait Store {
    ghost stored: { Self → Stored };

    /// The number that is at least every address ever held.
    fn top(&self) -> u64
        ensures { result ≡ (stored self.now).top };

    /// How many slots, elements or answers the cell at an address has; None where there is no cell.
    fn len(&self, at: u64) -> Option<u32>
        ensures len { result ≡ option_map cell_length (cell_at (stored self.now) at) }
        ensures sound { IsSound (stored self.now) };

    /// What the cell at an address holds; None where there is no cell.
    fn form(&self, at: u64) -> Option<Form>
        ensures { result ≡ option_map form_of (cell_at (stored self.now) at) };

    /// A slot as it stands, or an element as `Word`; None where there is no such slot or element, as in a list of answers.
    fn get(&self, at: u64, slot: u32) -> Option<Scalar>
        ensures { result ≡ asked_of (slot_of slot) at (stored self.now) };

    /// The answer at an index among those that are left, counted from 0; None where there is none.
    fn answer(&self, at: u64, index: u32) -> Option<bool>
        ensures { result ≡ asked_of (answer_of index) at (stored self.now) };

    /// Writes a slot of a cell of slots; false, and nothing is changed, where there is no such slot.
    fn set_field(&mut self, at: u64, slot: u32, value: Scalar) -> bool
        ensures answer { result ≡ is_some (asked_of (with_slot slot value) at (stored self.old)) }
        ensures store { stored self.new ≡ changed (with_slot slot value) at (stored self.old) };

    /// Writes an element of a cell of elements; false, and nothing is changed, where there is no such element.
    fn set_element(&mut self, at: u64, index: u32, value: u64) -> bool
        ensures answer { result ≡ is_some (asked_of (with_element index value) at (stored self.old)) }
        ensures store { stored self.new ≡ changed (with_element index value) at (stored self.old) };

    /// Takes the first answer off a list of answers; None, and nothing is changed, where there is none.
    fn pop(&mut self, at: u64) -> Option<bool>
        ensures answer { result ≡ asked_of (answer_of 0) at (stored self.old) }
        ensures store { stored self.new ≡ changed without_answer at (stored self.old) };

    /// Makes a cell at `top + 1`, which is its address and the new `top`. Without memory nothing has changed.
    fn add(&mut self, fresh: Fresh) -> Result<u64, Memory>
        requires { (stored self.old).top < 2 ^ 63 }
        ensures address { IfOk result (λ at. at ≡ (stored self.old).top + 1) }
        ensures ok { OnOk result (stored self.new ≡ with_fresh fresh (stored self.old)) }
        ensures err { OnErr result (stored self.new ≡ stored self.old) };

    /// Puts a cell at an address that holds none; `top` rises to it where it was less. Without memory nothing has changed.
    fn place(&mut self, at: u64, cell: Cell) -> Result<(), Memory>
        requires absent { cell_at (stored self.old) at ≡ None }
        requires least { 1 ≤ at }
        requires most { at < 2 ^ 32 }
        requires short { cell_length cell < 2 ^ 32 }
        ensures ok { OnOk result (stored self.new ≡ with_cell at cell (stored self.old)) }
        ensures err { OnErr result (stored self.new ≡ stored self.old) };

    /// Takes the cell at an address out; `top` stays. False, and nothing is changed, where there is none.
    fn remove(&mut self, at: u64) -> bool
        ensures answer { result ≡ is_some (cell_at (stored self.old) at) }
        ensures store { stored self.new ≡ without_cell at (stored self.old) };
}
