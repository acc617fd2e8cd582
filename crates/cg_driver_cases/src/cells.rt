// Scalars and cells as words of a case (docs/CASES.md, "Cells").
ghost use Rattle.std.specs.Prelude.{◌≡◌};
ghost use Rattle.cg_heap.specs.Stored.{cell_length};

use crate::text::TextFault;
use cg_base::{Items, literal};
use cg_heap::{Cell, Form, MapStore, Scalar, Store};
use std::alloc::{AllocError, Global};

// The number that digits spell, of which there is one at least.
fn read_number(digits: &[u8]) -> Result<u64, TextFault> {
    match literal(digits) {
        Some(number) if !digits.is_empty() => Ok(number),
        _ => Err(TextFault::Escape),
    }
}

/// The scalar that a word spells: a number, an address behind `@`, or `_` for one that is unset.
pub fn read_scalar(word: &[u8]) -> Result<Scalar, TextFault> {
    match word {
        b"_" => Ok(Scalar::Unset),
        [b'@', digits @ ..] => Ok(Scalar::Address(read_number(digits)?)),
        _ => Ok(Scalar::Word(read_number(word)?)),
    }
}

/// The address that a word spells behind `@`.
pub fn read_address(word: &[u8]) -> Result<u64, TextFault> {
    match word.strip_prefix(b"@".as_slice()) {
        Some(digits) => read_number(digits),
        None => Err(TextFault::Escape),
    }
}

// The answer that a word spells.
fn read_answer(word: &[u8]) -> Result<bool, TextFault> {
    match word {
        b"0" => Ok(false),
        b"1" => Ok(true),
        _ => Err(TextFault::Escape),
    }
}

// Slots, parted by commas, as all that cells hold; what is empty between two is left out.
fn read_slots(alloc: Global, text: &[u8]) -> Result<Cell, TextFault> {
    let mut slots = Items::new(alloc);
    for word in text.split(|byte| *byte == b',') {
        if !word.is_empty() {
            slots.push(read_scalar(word)?)?;
        }
    }
    Ok(Cell::Slots(slots))
}

// Elements.
fn read_elements(alloc: Global, text: &[u8]) -> Result<Cell, TextFault> {
    let mut elements = Items::new(alloc);
    for word in text.split(|byte| *byte == b',') {
        if !word.is_empty() {
            elements.push(read_number(word)?)?;
        }
    }
    Ok(Cell::Words(elements))
}

// Answers.
fn read_answers(alloc: Global, text: &[u8]) -> Result<Cell, TextFault> {
    let mut answers = Items::new(alloc);
    for word in text.split(|byte| *byte == b',') {
        if !word.is_empty() {
            answers.push(read_answer(word)?)?;
        }
    }
    Ok(Cell::Answers(answers))
}

/// The cell that a word spells: slots in `{}`, elements in `[]`, answers in `<>`.
pub fn read_cell(alloc: Global, word: &[u8]) -> Result<Cell, TextFault> {
    match word {
        [b'{', text @ .., b'}'] => read_slots(alloc, text),
        [b'[', text @ .., b']'] => read_elements(alloc, text),
        [b'<', text @ .., b'>'] => read_answers(alloc, text),
        _ => Err(TextFault::Escape),
    }
}

/// How many slots, elements or answers a cell has.
pub fn length_of(cell: &Cell) -> usize
    ensures { result ≡ cell_length cell.now }
{
    match cell {
        Cell::Slots(slots) => slots.len(),
        Cell::Words(elements) => elements.len(),
        Cell::Answers(answers) => answers.len(),
    }
}

/// Writes a scalar.
pub fn push_scalar(told: &mut String, scalar: Scalar) -> Result<(), AllocError> {
    match scalar {
        Scalar::Unset => told.push('_')?,
        Scalar::Word(number) => write!(told, "{number}")?,
        Scalar::Address(address) => write!(told, "@{address}")?,
    }
    Ok(())
}

// Writes what the cell at an address holds at an index.
fn push_content(
    told: &mut String,
    store: &MapStore,
    at: u64,
    index: u32,
) -> Result<(), AllocError> {
    if let Some(scalar) = store.get(at, index) {
        push_scalar(told, scalar)?;
    }
    if let Some(answer) = store.answer(at, index) {
        told.push(if answer { '1' } else { '0' })?;
    }
    Ok(())
}

// Writes what the cell at an address holds, parted by commas.
fn push_contents(told: &mut String, store: &MapStore, at: u64) -> Result<(), AllocError> {
    for index in 0..store.len(at).unwrap_or(0) {
        if index != 0 {
            told.push(',')?;
        }
        push_content(told, store, at, index)?;
    }
    Ok(())
}

/// Writes a line of the cell at an address; nothing where none is there.
pub fn push_cell(told: &mut String, store: &MapStore, at: u64) -> Result<(), AllocError> {
    let (open, close) = match store.form(at) {
        Some(Form::Slots) => ('{', "}\n"),
        Some(Form::Words) => ('[', "]\n"),
        Some(Form::Answers) => ('<', ">\n"),
        None => return Ok(()),
    };
    write!(told, "@{at}=")?;
    told.push(open)?;
    push_contents(told, store, at)?;
    told.push_str(close)?;
    Ok(())
}
