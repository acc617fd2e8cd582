// Reading right sides, one symbol at a time.
ghost use Rattle.std.specs.Prelude.{◌≡◌, ◌++◌, ◌∷◌, [], IfOk, IsTrue, ◌↔◌, codes};
ghost use Rattle.cg_cread_pieces.specs.Rights as machine;
ghost use Rattle.cg_cread_parts.specs.Views.{symbol_view};

use cg_base::{Items, Memory, Name, Word};
use cg_cread_parts::{Keyword, Operand, Symbol, function_name};
use cg_ctree::{COp, COpnd, CRhs};
use std::alloc::Global;

/// Whose operand a cast stands before: that of a flip, or the left or the right one of an operation. At the right one the word
/// of the left one, the operation and the left operand are known.
#[derive(Drop)]
pub enum Cast {
    OfFlip,
    OfLeft,
    OfRight(Word, COp, COpnd),
}

/// Where in a cast the reader stands: before it, behind its `(`, or behind its word.
#[derive(Clone, Copy)]
pub enum Spot {
    Before,
    Opened,
    Typed(Word),
}

/// What an operand is to a right side: all of it; what is converted; what is tested for null; what is cast; the first argument of a call;
/// or one behind others.
pub enum Slot {
    Alone,
    Converted(Word),
    Tested,
    OfCast(Word, Cast, Word),
    First(Name),
    Argument(Name, Items<COpnd>),
}

impl Drop for Slot {
    fn drop(self) {
        match self {
            Slot::OfCast(_, cast, _) => drop(cast),
            Slot::First(name) => drop(name),
            Slot::Argument(name, arguments) => {
                drop(name);
                drop(arguments);
            }
            Slot::Alone | Slot::Converted(_) | Slot::Tested => (),
        }
    }
}

/// Where in the size of a struct the reader stands: behind `sizeof`, its `(`, `struct`, the name or the `)`.
#[derive(Drop)]
pub enum Size {
    Begun,
    Opened,
    StructRead,
    Named(Name),
    Closed(Name),
}

/// Where in a right side the reader stands: before it; behind `(`, the word behind that, the `)` behind that and the `(` behind
/// that; in a cast, with the outer word; in an operand; before the second argument of a call; behind the `==` or the `0` of a test for
/// null; in a size, behind the operand before it; behind the whole; or where nothing goes on.
pub enum Right {
    Wanted,
    Opened,
    Typed(Word),
    Outer(Word),
    Inner(Word),
    InCast(Word, Cast, Spot),
    InOperand(Slot, Operand),
    Second(Name, COpnd),
    NullSign(COpnd),
    NullZero(COpnd),
    InSize(COpnd, Size),
    Whole(CRhs),
    Stuck,
}

impl Drop for Right {
    fn drop(self) {
        match self {
            Right::InCast(_, cast, _) => drop(cast),
            Right::InOperand(slot, operand) => {
                drop(slot);
                drop(operand);
            }
            Right::Second(name, operand) => {
                drop(name);
                drop(operand);
            }
            Right::NullSign(operand) | Right::NullZero(operand) => drop(operand),
            Right::InSize(operand, size) => {
                drop(operand);
                drop(size);
            }
            Right::Whole(right) => drop(right),
            Right::Wanted
            | Right::Opened
            | Right::Typed(_)
            | Right::Outer(_)
            | Right::Inner(_)
            | Right::Stuck => (),
        }
    }
}

// Whether operands may be cast to a word.
fn is_inner(word: Word) -> bool
    ensures { result ≡ machine.is_inner word }
{
    match word {
        Word::U8 | Word::U16 => false,
        Word::U32 | Word::U64 => true,
    }
}

// Whether a cast may be to a word: both casts of an operation are to one.
fn allows(cast: &Cast, word: Word) -> bool
    ensures { result ≡ machine.allows cast.now word }
{
    match cast {
        Cast::OfFlip | Cast::OfLeft => is_inner(word),
        Cast::OfRight(left, _, _) => *left == word,
    }
}

// In an operand, behind its first symbol.
fn operand_begun<'a>(alloc: Global, slot: Slot, symbol: Symbol<'a>) -> Result<Right, Memory>
    ensures { IfOk result (λ m. m ≡ machine.in_operand slot (symbol_view symbol.entry)) }
{
    let operand = Operand::Wanted.step(alloc, symbol)?;
    Ok(Right::InOperand(slot, operand))
}

// Before a right side.
fn wanted<'a>(alloc: Global, symbol: Symbol<'a>) -> Result<Right, Memory>
    ensures { IfOk result (λ m. m ≡ machine.on_wanted (symbol_view symbol.entry)) }
{
    match symbol {
        Symbol::Opening => Ok(Right::Opened),
        _ => operand_begun(alloc, Slot::Alone, symbol),
    }
}

// Behind the first `(`.
fn opened<'a>(symbol: Symbol<'a>) -> Right
    ensures { result ≡ machine.on_opened (symbol_view symbol.entry) }
{
    match symbol {
        Symbol::Word(word) => Right::Typed(word),
        _ => Right::Stuck,
    }
}

// Behind the first `(` and a word.
fn typed<'a>(word: Word, symbol: Symbol<'a>) -> Right
    ensures { result ≡ machine.on_typed word (symbol_view symbol.entry) }
{
    match symbol {
        Symbol::Closing => Right::Outer(word),
        _ => Right::Stuck,
    }
}

// Behind the first word in parentheses.
fn outer<'a>(alloc: Global, word: Word, symbol: Symbol<'a>) -> Result<Right, Memory>
    ensures { IfOk result (λ m. m ≡ machine.on_outer word (symbol_view symbol.entry)) }
{
    match symbol {
        Symbol::Opening => Ok(Right::Inner(word)),
        _ => operand_begun(alloc, Slot::Converted(word), symbol),
    }
}

// At an operand that is tested for null, which gives an `uint8_t`.
fn null<'a>(alloc: Global, word: Word, symbol: Symbol<'a>) -> Result<Right, Memory>
    ensures { IfOk result (λ m. m ≡ machine.on_null word (symbol_view symbol.entry)) }
{
    match word {
        Word::U8 => operand_begun(alloc, Slot::Tested, symbol),
        _ => Ok(Right::Stuck),
    }
}

// Behind the first word in parentheses and a `(`.
fn inner<'a>(alloc: Global, word: Word, symbol: Symbol<'a>) -> Result<Right, Memory>
    ensures { IfOk result (λ m. m ≡ machine.on_inner word (symbol_view symbol.entry)) }
{
    match symbol {
        Symbol::Tilde => Ok(Right::InCast(word, Cast::OfFlip, Spot::Before)),
        Symbol::Opening => Ok(Right::InCast(word, Cast::OfLeft, Spot::Opened)),
        _ => null(alloc, word, symbol),
    }
}

// Behind the `(` of a cast.
fn cast_opened<'a>(outer: Word, cast: Cast, symbol: Symbol<'a>) -> Right
    ensures { result ≡ machine.on_cast_opened outer cast (symbol_view symbol.entry) }
{
    match symbol {
        Symbol::Word(word) if allows(&cast, word) => Right::InCast(outer, cast, Spot::Typed(word)),
        _ => Right::Stuck,
    }
}

// In a cast.
fn in_cast<'a>(outer: Word, cast: Cast, spot: Spot, symbol: Symbol<'a>) -> Right
    ensures { result ≡ machine.on_cast outer cast spot (symbol_view symbol.entry) }
{
    match spot {
        Spot::Before => match symbol {
            Symbol::Opening => Right::InCast(outer, cast, Spot::Opened),
            _ => Right::Stuck,
        },
        Spot::Opened => cast_opened(outer, cast, symbol),
        Spot::Typed(word) => match symbol {
            Symbol::Closing => Right::InOperand(Slot::OfCast(outer, cast, word), Operand::Wanted),
            _ => Right::Stuck,
        },
    }
}

// Behind the operand of a cast.
fn behind_cast<'a>(outer: Word, cast: Cast, word: Word, operand: COpnd, symbol: Symbol<'a>) -> Right
    ensures { result ≡ machine.on_behind outer cast word operand (symbol_view symbol.entry) }
{
    match (cast, symbol) {
        (Cast::OfFlip, Symbol::Closing) => Right::Whole(CRhs::Flip(outer, word, operand)),
        (Cast::OfLeft, Symbol::Op(op)) => {
            Right::InCast(outer, Cast::OfRight(word, op, operand), Spot::Before)
        }
        (Cast::OfRight(inner, op, left), Symbol::Closing) => {
            Right::Whole(CRhs::Binary(outer, inner, op, left, operand))
        }
        _ => Right::Stuck,
    }
}

// Behind an operand that is alone.
fn behind_alone<'a>(alloc: Global, operand: COpnd, symbol: Symbol<'a>) -> Result<Right, Memory>
    ensures { IfOk result (λ m. m ≡ machine.on_alone operand (symbol_view symbol.entry)) }
{
    match symbol {
        Symbol::Opening => match function_name(alloc, &operand)? {
            Some(name) => Ok(Right::InOperand(Slot::First(name), Operand::Wanted)),
            None => Ok(Right::Stuck),
        },
        _ => Ok(Right::Stuck),
    }
}

// Behind an operand that is tested for null.
fn behind_tested<'a>(operand: COpnd, symbol: Symbol<'a>) -> Right
    ensures { result ≡ machine.on_tested operand (symbol_view symbol.entry) }
{
    match symbol {
        Symbol::Op(COp::Eq) => Right::NullSign(operand),
        _ => Right::Stuck,
    }
}

// The list of one operand.
fn one(alloc: Global, operand: COpnd) -> Result<Items<COpnd>, Memory>
    ensures { IfOk result (λ operands. operands ≡ operand ∷ []) }
{
    let mut operands = Items::new(alloc);
    operands.push(operand).and(Ok(operands))
}

// Behind the first argument.
fn behind_first<'a>(
    alloc: Global,
    function: Name,
    operand: COpnd,
    symbol: Symbol<'a>,
) -> Result<Right, Memory>
    ensures { IfOk result (λ m. m ≡ machine.on_first function operand (symbol_view symbol.entry)) }
{
    match symbol {
        Symbol::Comma => Ok(Right::Second(function, operand)),
        Symbol::Closing => behind_argument(function, Items::new(alloc), operand, symbol),
        _ => Ok(Right::Stuck),
    }
}

// Behind a further argument.
fn behind_argument<'a>(
    function: Name,
    mut arguments: Items<COpnd>,
    operand: COpnd,
    symbol: Symbol<'a>,
) -> Result<Right, Memory>
    ensures { IfOk result (λ m. m ≡ machine.on_argument function (arguments ++ operand ∷ []) (symbol_view symbol.entry)) }
{
    arguments.push(operand)?;
    match symbol {
        Symbol::Comma => Ok(Right::InOperand(Slot::Argument(function, arguments), Operand::Wanted)),
        Symbol::Closing => Ok(Right::Whole(CRhs::Call(function, arguments))),
        _ => Ok(Right::Stuck),
    }
}

impl Slot {
    // Behind an operand.
    fn behind<'a>(self, alloc: Global, operand: COpnd, symbol: Symbol<'a>) -> Result<Right, Memory>
        ensures { IfOk result (λ m. m ≡ machine.behind self operand (symbol_view symbol.entry)) }
    {
        match self {
            Slot::Alone => behind_alone(alloc, operand, symbol),
            Slot::Converted(_) => Ok(Right::Stuck),
            Slot::Tested => Ok(behind_tested(operand, symbol)),
            Slot::OfCast(outer, cast, word) => {
                Ok(behind_cast(outer, cast, word, operand, symbol))
            }
            Slot::First(function) => behind_first(alloc, function, operand, symbol),
            Slot::Argument(function, arguments) => {
                behind_argument(function, arguments, operand, symbol)
            }
        }
    }

    // The right side that an operand ends, where it ends one.
    fn right(self, operand: Option<COpnd>) -> Option<CRhs>
        ensures { result ≡ machine.operand_right self operand }
    {
        match self {
            Slot::Alone => Some(CRhs::Opnd(operand?)),
            Slot::Converted(word) => Some(CRhs::Conv(word, operand?)),
            _ => None,
        }
    }
}

// In an operand.
fn in_operand<'a>(
    alloc: Global,
    slot: Slot,
    operand: Operand,
    symbol: Symbol<'a>,
) -> Result<Right, Memory>
    ensures { IfOk result (λ m. m ≡ machine.on_operand slot operand (symbol_view symbol.entry)) }
{
    if symbol.is_part() {
        let operand = operand.step(alloc, symbol)?;
        return Ok(Right::InOperand(slot, operand));
    }
    match operand.end() {
        Some(operand) => slot.behind(alloc, operand, symbol),
        None => Ok(Right::Stuck),
    }
}

// At `sizeof` behind a function's name and an argument: the function is `cg_new`.
fn sized(function: Name, operand: COpnd) -> Right
    ensures { result ≡ machine.sized function operand }
{
    if function.bytes() == b"cg_new".as_slice() {
        Right::InSize(operand, Size::Begun)
    } else {
        Right::Stuck
    }
}

// Before the second argument.
fn second<'a>(
    alloc: Global,
    function: Name,
    operand: COpnd,
    symbol: Symbol<'a>,
) -> Result<Right, Memory>
    ensures { IfOk result (λ m. m ≡ machine.on_second function operand (symbol_view symbol.entry)) }
{
    match symbol {
        Symbol::Key(Keyword::Sizeof) => Ok(sized(function, operand)),
        _ => {
            let arguments = one(alloc, operand)?;
            operand_begun(alloc, Slot::Argument(function, arguments), symbol)
        }
    }
}

// Behind `==`.
fn null_sign<'a>(operand: COpnd, symbol: Symbol<'a>) -> Right
    ensures { result ≡ machine.on_zero operand (symbol_view symbol.entry) }
{
    match symbol {
        Symbol::Count(0) => Right::NullZero(operand),
        _ => Right::Stuck,
    }
}

// Behind `== 0`.
fn null_zero<'a>(operand: COpnd, symbol: Symbol<'a>) -> Right
    ensures { result ≡ machine.on_null_end operand (symbol_view symbol.entry) }
{
    match symbol {
        Symbol::Closing => Right::Whole(CRhs::IsNull(operand)),
        _ => Right::Stuck,
    }
}

impl Size {
    // One symbol more of a size, behind the operand before it.
    fn step<'a>(self, alloc: Global, operand: COpnd, symbol: Symbol<'a>) -> Result<Right, Memory>
        ensures { IfOk result (λ m. m ≡ machine.on_size operand self (symbol_view symbol.entry)) }
    {
        match (self, symbol) {
            (Size::Begun, Symbol::Opening) => Ok(Right::InSize(operand, Size::Opened)),
            (Size::Opened, Symbol::Key(Keyword::Struct)) => {
                Ok(Right::InSize(operand, Size::StructRead))
            }
            (Size::StructRead, Symbol::Name(name)) => {
                let name = Name::new(alloc, name)?;
                Ok(Right::InSize(operand, Size::Named(name)))
            }
            (Size::Named(name), Symbol::Closing) => {
                Ok(Right::InSize(operand, Size::Closed(name)))
            }
            (Size::Closed(name), Symbol::Closing) => { Ok(Right::Whole(CRhs::New(operand, name))) }
            _ => Ok(Right::Stuck),
        }
    }
}

impl Right {
    // One symbol more, in the words and casts before an operand.
    fn cast_step<'a>(self, alloc: Global, symbol: Symbol<'a>) -> Result<Right, Memory>
        ensures { IfOk result (λ m. m ≡ machine.cast_step self (symbol_view symbol.entry)) }
    {
        match self {
            Right::Wanted => wanted(alloc, symbol),
            Right::Opened => Ok(opened(symbol)),
            Right::Typed(word) => Ok(typed(word, symbol)),
            Right::Outer(word) => outer(alloc, word, symbol),
            Right::Inner(word) => inner(alloc, word, symbol),
            Right::InCast(outer, cast, spot) => Ok(in_cast(outer, cast, spot, symbol)),
            _ => Ok(Right::Stuck),
        }
    }

    /// One symbol more of a right side.
    pub fn step<'a>(self, alloc: Global, symbol: Symbol<'a>) -> Result<Right, Memory>
        ensures { IfOk result (λ m. m ≡ machine.right_step self (symbol_view symbol.entry)) }
    {
        match self {
            Right::InOperand(slot, operand) => in_operand(alloc, slot, operand, symbol),
            Right::Second(function, operand) => second(alloc, function, operand, symbol),
            Right::NullSign(operand) => Ok(null_sign(operand, symbol)),
            Right::NullZero(operand) => Ok(null_zero(operand, symbol)),
            Right::InSize(operand, size) => size.step(alloc, operand, symbol),
            other => other.cast_step(alloc, symbol),
        }
    }

    /// The right side that ends there, where one does.
    pub fn end(self) -> Option<CRhs>
        ensures { result ≡ machine.right_end self }
    {
        match self {
            Right::InOperand(slot, operand) => slot.right(operand.end()),
            Right::Whole(right) => Some(right),
            _ => None,
        }
    }

    /// Whether a right side may still come of it.
    pub fn is_open(&self) -> bool
        ensures { result ≡ machine.right_is_open self.now }
    {
        match self {
            Right::InOperand(_, operand) => operand.is_open(),
            Right::Stuck => false,
            _ => true,
        }
    }
}
