// Cells by their addresses, and the values of abstract types.
ghost use Rattle.std.specs.Prelude.{◌≡◌, Some, IfOk};
ghost use Rattle.cg_base.specs.Bytes.{digit, Each};
ghost use Rattle.cg_heaptext_def.specs.HeapText.{cells_of};
ghost use Rattle.cg_heaptext_def.specs.Reading.{value_within};
ghost use Rattle.cg_heaptext_def.specs.Trees.{Cell, Heap, Written, amount, bare};
ghost use Rattle.cg_heaptext_entries.specs.Index.{CellStands, numeral_of};
ghost use Rattle.cg_heaptext_value.specs.Capped.{capped_value};
ghost use Rattle.cg_heaptext_value.specs.Given.{AreCells, IsFound, abstract_in};
ghost use Rattle.cg_heaptext_values.specs.Values.{StandsAt};
ghost use Rattle.cg_value.specs.Values.{value_of};

use cg_base::Memory;
use cg_heaptext_cells::{CellForm, answers, elements, form};
use cg_heaptext_entries::{Index, Numeral};
use cg_heaptext_index::Addresses;
use cg_heaptext_lexer::Lexer;
use cg_heaptext_values::{Head, ValueAt};
use cg_value::Value;
use std::alloc::Global;

// The cell at an address, which digits spell; None where there is none.
pub(crate) fn cell_at<'a>(
    index: &Index<'a>,
    addresses: &Addresses,
    address: &Numeral,
) -> Option<Lexer<'a>>
    ensures { (h : Heap) → AreCells index.now addresses.now h → Each digit address.now.digits.now → IsFound result (cells_of h (amount (numeral_of address.now))) }
{
    let at = addresses.find(address)?;
    let entry = index.entries.as_slice().get(at)?;
    Some(entry.cell.copy())
}

// What stands in a cell: the elements of an array, or the answers of an allocator; else unit.
fn value_in(alloc: Global, cell: &Lexer) -> Result<Value, Memory>
    ensures { (c : Cell) → CellStands cell.now c → IfOk result (λ x. value_of x ≡ capped_value (value_within (Some c))) }
{
    match form(cell) {
        CellForm::Slots => Ok(Value::Unit),
        CellForm::Elements => Ok(Value::Array(elements(alloc, cell, u64::MAX)?.numbers)),
        CellForm::Answers => Ok(Value::Answers(answers(alloc, cell)?)),
    }
}

// The value of an abstract type that is the cell at an address.
fn value_by(
    alloc: Global,
    index: &Index,
    addresses: &Addresses,
    address: &Numeral,
) -> Result<Value, Memory>
    ensures { (h : Heap) → AreCells index.now addresses.now h → Each digit address.now.digits.now → IfOk result (λ x. value_of x ≡ capped_value (value_within (cells_of h (amount (numeral_of address.now))))) }
{
    match cell_at(index, addresses, address) {
        Some(cell) => value_in(alloc, &cell),
        None => Ok(Value::Unit),
    }
}

// The value of an abstract type.
pub(crate) fn abstract_value(
    alloc: Global,
    index: &Index,
    addresses: &Addresses,
    value: &ValueAt,
) -> Result<Value, Memory>
    ensures { (h : Heap) → AreCells index.now addresses.now h → (v : Written) → StandsAt value.now v → IfOk result (λ x. value_of x ≡ capped_value (abstract_in (cells_of h) (bare v))) }
{
    match value.head() {
        Head::Address(_, address) => value_by(alloc, index, addresses, &address),
        _ => Ok(Value::Unit),
    }
}
