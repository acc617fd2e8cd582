// Reading a heap file, one symbol at a time.
ghost use Rattle.std.specs.Prelude.{◌≡◌, [], ◌∷◌, IfOk, MatchOption, if◌then◌else◌};
ghost use Rattle.cg_heaptext_parser.specs.Machine as machine;
ghost use Rattle.cg_heaptext_parser.specs.Outline as outline;
ghost use Rattle.cg_heaptext_parser.specs.Views.{outline_of, symbol_view};

use crate::phase::{Item, Open, Phase};
use crate::symbol::Symbol;
use cg_base::Memory;
use cg_parser_stack::Stack;
use std::alloc::Global;
use std::mem::drop;

/// Where in a file the reader stands; whether what is open stands in a cell, and not in the argument; and what is open, the innermost first.
pub(crate) struct Reading {
    pub(crate) phase: Phase,
    pub(crate) in_cell: bool,
    pub(crate) opened: Stack<Open>,
}

impl Drop for Reading {
    fn drop(self) {
        let Reading {
            phase: _,
            in_cell: _,
            opened,
        } = self;
        drop(opened);
    }
}

/// Outside of all values, where nothing is open.
pub(crate) fn outside(alloc: Global, phase: Phase) -> Reading
    ensures { outline_of result ≡ outline.outside phase }
{
    Reading {
        phase,
        in_cell: false,
        opened: Stack::new(alloc),
    }
}

// What is open, and whether that is in a cell.
struct Around {
    in_cell: bool,
    opened: Stack<Open>,
}

impl Drop for Around {
    fn drop(self) {
        let Around { in_cell: _, opened } = self;
        drop(opened);
    }
}

// The innermost thing that is open and waits for no payload, which is taken off with those that do; None where there is none.
fn innermost(opened: &mut Stack<Open>) -> Option<Open>
    ensures { MatchOption result ((outline.closed opened.old ≡ []) × (opened.new ≡ [])) (λ top. outline.closed opened.old ≡ top ∷ opened.new) }
{
    loop {
        match opened.pop() {
            Some(Open::Payload) => {}
            other => return other,
        }
    }
}

impl Around {
    // Where a value is wanted, read or left.
    fn at(self, phase: Phase) -> Reading
        ensures { outline_of result ≡ outline.at phase self.in_cell self.opened }
    {
        let Around { in_cell, opened } = self;
        Reading {
            phase,
            in_cell,
            opened,
        }
    }

    // The same with one thing more that is open.
    fn within(self, phase: Phase, inner: Open) -> Result<Reading, Memory>
        ensures { IfOk result (λ r. outline_of r ≡ outline.at phase self.in_cell (inner ∷ self.opened)) }
    {
        let Around {
            in_cell,
            mut opened,
        } = self;
        let pushed = opened.push(inner);
        pushed.and(Ok(Reading {
            phase,
            in_cell,
            opened,
        }))
    }

    // At a constructor.
    fn on_constructor(self) -> Result<Reading, Memory>
        ensures { IfOk result (λ r. outline_of r ≡ outline.on_constructor self.in_cell self.opened) }
    {
        let Around {
            in_cell,
            mut opened,
        } = self;
        match opened.pop() {
            None => Ok(Around { in_cell, opened }.at(Phase::AfterConstructor)),
            Some(Open::Payload) => Around { in_cell, opened }.within(Phase::Have, Open::Payload),
            Some(top) => Around { in_cell, opened }.within(Phase::AfterConstructor, top),
        }
    }

    // Before a value.
    fn on_value<'a>(self, alloc: Global, symbol: Symbol<'a>) -> Result<Reading, Memory>
        ensures { IfOk result (λ r. outline_of r ≡ outline.on_value self.in_cell self.opened (symbol_view symbol.entry)) }
    {
        match symbol {
            Symbol::Digits(_) | Symbol::Wild | Symbol::Truth(_) => Ok(self.at(Phase::Have)),
            Symbol::Constructor(_) => self.on_constructor(),
            Symbol::At => Ok(self.at(Phase::ValueSign)),
            Symbol::OpenParen => Ok(self.at(Phase::AfterParen)),
            Symbol::OpenRecord => Ok(self.at(Phase::FieldName)),
            _ => Ok(failed(alloc, self)),
        }
    }

    // At a comma behind a value.
    fn on_comma(self, alloc: Global) -> Result<Reading, Memory>
        ensures { IfOk result (λ r. outline_of r ≡ outline.on_comma self.in_cell (outline.closed self.opened)) }
    {
        let Around {
            in_cell,
            mut opened,
        } = self;
        match innermost(&mut opened) {
            None if in_cell => Ok(left(alloc, Around { in_cell, opened }, Phase::CellName)),
            Some(Open::Paren) => Around { in_cell, opened }.within(Phase::Want, Open::Paren),
            Some(Open::Record) => Ok(Around { in_cell, opened }.at(Phase::FieldName)),
            None | Some(Open::Payload) => Ok(failed(alloc, Around { in_cell, opened })),
        }
    }

    // At a closing parenthesis behind a value.
    fn on_close(self, alloc: Global) -> Reading
        ensures { outline_of result ≡ outline.on_close self.in_cell (outline.closed self.opened) }
    {
        let Around {
            in_cell,
            mut opened,
        } = self;
        match innermost(&mut opened) {
            Some(Open::Paren) => Around { in_cell, opened }.at(Phase::Have),
            _ => failed(alloc, Around { in_cell, opened }),
        }
    }

    // At a closing brace behind a value.
    fn on_end(self, alloc: Global) -> Reading
        ensures { outline_of result ≡ outline.on_end self.in_cell (outline.closed self.opened) }
    {
        let Around {
            in_cell,
            mut opened,
        } = self;
        match innermost(&mut opened) {
            None if in_cell => left(alloc, Around { in_cell, opened }, Phase::Between),
            Some(Open::Record) => Around { in_cell, opened }.at(Phase::Have),
            _ => failed(alloc, Around { in_cell, opened }),
        }
    }

    // Behind a value.
    fn on_have<'a>(self, alloc: Global, symbol: Symbol<'a>) -> Result<Reading, Memory>
        ensures { IfOk result (λ r. outline_of r ≡ outline.on_have self.in_cell self.opened (symbol_view symbol.entry)) }
    {
        match symbol {
            Symbol::Comma => self.on_comma(alloc),
            Symbol::CloseParen => Ok(self.on_close(alloc)),
            Symbol::CloseBrace => Ok(self.on_end(alloc)),
            _ => Ok(failed(alloc, self)),
        }
    }

    // Behind a constructor.
    fn on_after_constructor<'a>(self, alloc: Global, symbol: Symbol<'a>) -> Result<Reading, Memory>
        ensures { IfOk result (λ r. outline_of r ≡ outline.on_after_constructor self.in_cell self.opened (symbol_view symbol.entry)) }
    {
        if begins_value(symbol) {
            self.inside(Open::Payload)?.on_value(alloc, symbol)
        } else {
            self.on_have(alloc, symbol)
        }
    }

    // Behind a `(`.
    fn on_paren<'a>(self, alloc: Global, symbol: Symbol<'a>) -> Result<Reading, Memory>
        ensures { IfOk result (λ r. outline_of r ≡ outline.on_paren self.in_cell self.opened (symbol_view symbol.entry)) }
    {
        match symbol {
            Symbol::CloseParen => Ok(self.at(Phase::Have)),
            _ => self.inside(Open::Paren)?.on_value(alloc, symbol),
        }
    }

    // With one thing more that is open.
    fn inside(self, inner: Open) -> Result<Around, Memory>
        ensures { IfOk result (λ r. (r.in_cell ≡ self.in_cell) × (r.opened ≡ inner ∷ self.opened)) }
    {
        let Around {
            in_cell,
            mut opened,
        } = self;
        let pushed = opened.push(inner);
        pushed.and(Ok(Around { in_cell, opened }))
    }
}

// Behind the last of what was open.
fn left(alloc: Global, around: Around, phase: Phase) -> Reading
    ensures { outline_of result ≡ outline.outside phase }
{
    drop(around);
    outside(alloc, phase)
}

// Where nothing goes on.
fn failed(alloc: Global, around: Around) -> Reading
    ensures { outline_of result ≡ outline.failed }
{
    left(alloc, around, Phase::Failed)
}

// Whether a value begins with a symbol.
fn begins_value<'a>(symbol: Symbol<'a>) -> bool
    ensures { result ≡ machine.begins_value (symbol_view symbol.entry) }
{
    match symbol {
        Symbol::Digits(_) | Symbol::Wild | Symbol::Truth(_) | Symbol::Constructor(_) => true,
        Symbol::At | Symbol::OpenParen | Symbol::OpenRecord => true,
        _ => false,
    }
}

fn is_digits<'a>(symbol: Symbol<'a>) -> bool
    ensures { result ≡ outline.is_digits (symbol_view symbol.entry) }
{
    matches!(symbol, Symbol::Digits(_))
}

fn is_name<'a>(symbol: Symbol<'a>) -> bool
    ensures { result ≡ outline.is_name (symbol_view symbol.entry) }
{
    matches!(symbol, Symbol::Named(_))
}

fn is_equals<'a>(symbol: Symbol<'a>) -> bool
    ensures { result ≡ outline.is_equals (symbol_view symbol.entry) }
{
    matches!(symbol, Symbol::Equals)
}

// This phase, where something holds.
fn only_if(holds: bool, phase: Phase) -> Phase
    ensures { result ≡ outline.only_if holds phase }
{
    if holds { phase } else { Phase::Failed }
}

// Before an entry or `arg`.
fn on_between<'a>(symbol: Symbol<'a>) -> Phase
    ensures { result ≡ outline.on_between (symbol_view symbol.entry) }
{
    match symbol {
        Symbol::At => Phase::AfterSign,
        Symbol::Named(name) => only_if(name == b"arg".as_slice(), Phase::ArgumentEquals),
        _ => Phase::Failed,
    }
}

// Behind the `=` of an entry.
fn on_cell<'a>(symbol: Symbol<'a>) -> Phase
    ensures { result ≡ outline.on_cell (symbol_view symbol.entry) }
{
    match symbol {
        Symbol::OpenBrace => Phase::CellName,
        Symbol::OpenBracket => Phase::Elements(Item::Fresh),
        Symbol::OpenAngle => Phase::Answers(Item::Fresh),
        _ => Phase::Failed,
    }
}

// In a list of numbers.
fn on_elements<'a>(item: Item, symbol: Symbol<'a>) -> Phase
    ensures { result ≡ outline.on_elements item (symbol_view symbol.entry) }
{
    match (item, symbol) {
        (Item::Fresh | Item::Behind, Symbol::CloseBracket) => Phase::Between,
        (Item::Fresh | Item::Again, Symbol::Digits(_)) => Phase::Elements(Item::Behind),
        (Item::Behind, Symbol::Comma) => Phase::Elements(Item::Again),
        _ => Phase::Failed,
    }
}

// At a number in a list of answers.
fn on_answer(digits: &[u8]) -> Phase
    ensures { result ≡ outline.on_answer digits.now }
{
    let is_bit = digits == b"1".as_slice() || digits == b"0".as_slice();
    only_if(is_bit, Phase::Answers(Item::Behind))
}

// In a list of answers.
fn on_answers<'a>(item: Item, symbol: Symbol<'a>) -> Phase
    ensures { result ≡ outline.on_answers item (symbol_view symbol.entry) }
{
    match (item, symbol) {
        (Item::Fresh | Item::Behind, Symbol::CloseAngle) => Phase::Between,
        (Item::Fresh | Item::Again, Symbol::Digits(digits)) => on_answer(digits),
        (Item::Behind, Symbol::Comma) => Phase::Answers(Item::Again),
        _ => Phase::Failed,
    }
}

// Outside of all values.
fn next_phase<'a>(phase: Phase, symbol: Symbol<'a>) -> Phase
    ensures { result ≡ outline.next_phase phase (symbol_view symbol.entry) }
{
    match phase {
        Phase::Between => on_between(symbol),
        Phase::AfterSign => only_if(is_digits(symbol), Phase::AfterAddress),
        Phase::AfterAddress => only_if(is_equals(symbol), Phase::BeforeCell),
        Phase::BeforeCell => on_cell(symbol),
        Phase::CellName => only_if(is_name(symbol), Phase::CellEquals),
        Phase::Elements(item) => on_elements(item, symbol),
        Phase::Answers(item) => on_answers(item, symbol),
        _ => Phase::Failed,
    }
}

impl Around {
    // Where a value is wanted or left, where something holds.
    fn only_if(self, alloc: Global, holds: bool, phase: Phase) -> Reading
        ensures { outline_of result ≡ (if holds then outline.at phase self.in_cell self.opened else outline.failed) }
    {
        if holds {
            self.at(phase)
        } else {
            failed(alloc, self)
        }
    }

    // Before the first value of a cell or of the argument.
    fn begin(self, alloc: Global, holds: bool, in_cell: bool) -> Reading
        ensures { outline_of result ≡ (if holds then outline.begun in_cell else outline.failed) }
    {
        drop(self);
        if holds {
            Reading {
                phase: Phase::Want,
                in_cell,
                opened: Stack::new(alloc),
            }
        } else {
            outside(alloc, Phase::Failed)
        }
    }

    // In the field of an unboxed record, where its `=` stands.
    fn on_field<'a>(self, alloc: Global, symbol: Symbol<'a>) -> Result<Reading, Memory>
        ensures { IfOk result (λ r. outline_of r ≡ outline.on_field self.in_cell self.opened (symbol_view symbol.entry)) }
    {
        if is_equals(symbol) {
            self.within(Phase::Want, Open::Record)
        } else {
            Ok(failed(alloc, self))
        }
    }
}

impl Reading {
    /// One symbol more.
    pub(crate) fn step<'a>(self, alloc: Global, symbol: Symbol<'a>) -> Result<Reading, Memory>
        ensures { IfOk result (λ r. outline_of r ≡ outline.step (outline_of self) (symbol_view symbol.entry)) }
    {
        let Reading {
            phase,
            in_cell,
            opened,
        } = self;
        let around = Around { in_cell, opened };
        match phase {
            Phase::CellEquals => Ok(around.begin(alloc, is_equals(symbol), true)),
            Phase::ArgumentEquals => Ok(around.begin(alloc, is_equals(symbol), false)),
            Phase::Want => around.on_value(alloc, symbol),
            Phase::AfterParen => around.on_paren(alloc, symbol),
            Phase::AfterConstructor => around.on_after_constructor(alloc, symbol),
            Phase::ValueSign => Ok(around.only_if(alloc, is_digits(symbol), Phase::Have)),
            Phase::FieldName => Ok(around.only_if(alloc, is_name(symbol), Phase::FieldEquals)),
            Phase::FieldEquals => around.on_field(alloc, symbol),
            Phase::Have => around.on_have(alloc, symbol),
            _ => Ok(left(alloc, around, next_phase(phase, symbol))),
        }
    }

    /// Whether a heap file ends there.
    pub(crate) fn ends(self) -> bool
        ensures { result ≡ outline.ends (outline_of self) }
    {
        let Reading {
            phase,
            in_cell,
            mut opened,
        } = self;
        let is_last = innermost(&mut opened).is_none() && !in_cell;
        is_last && matches!(phase, Phase::Have | Phase::AfterConstructor)
    }
}
