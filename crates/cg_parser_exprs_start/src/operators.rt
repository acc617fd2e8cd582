// Signs, and the operators that they are.
ghost use Rattle.std.specs.Prelude.{◌≡◌};
ghost use Rattle.cg_parser_symbols.specs.Views.{symbol_view};
ghost use Rattle.cg_parser_exprs_frames.specs.Stack.{angle_of};
ghost use Rattle.cg_parser_exprs_def.specs.Machine.{operator, alone_op, shift_op, is_second, starts_atom};

use cg_core::Op;
use cg_parser_exprs_frames::frame::Angle;
use cg_parser_symbols::Symbol;

/// The operator of a sign that is no part of a shift.
pub fn operator<'a>(symbol: Symbol<'a>) -> Option<Op>
    ensures { result ≡ operator (symbol_view symbol.entry) }
{
    match symbol {
        Symbol::Star => Some(Op::Mul),
        Symbol::Slash => Some(Op::Div),
        Symbol::Percent => Some(Op::Rem),
        Symbol::Plus => Some(Op::Add),
        Symbol::Minus => Some(Op::Sub),
        Symbol::BitAnd => Some(Op::And),
        Symbol::BitXor => Some(Op::Xor),
        Symbol::BitOr => Some(Op::Or),
        Symbol::Equal => Some(Op::Eq),
        Symbol::NotEqual => Some(Op::Ne),
        Symbol::LessEqual => Some(Op::Le),
        Symbol::GreaterEqual => Some(Op::Ge),
        Symbol::Both => Some(Op::Both),
        Symbol::Either => Some(Op::Either),
        _ => None,
    }
}

/// The operator of a sign that might have been the first of a shift.
pub fn alone_op(angle: Angle) -> Op
    ensures { result ≡ alone_op (angle_of angle) }
{
    match angle {
        Angle::ToLeft => Op::Lt,
        Angle::ToRight => Op::Gt,
    }
}

/// The operator of a sign with a second one behind it.
pub fn shift_op(angle: Angle) -> Op
    ensures { result ≡ shift_op (angle_of angle) }
{
    match angle {
        Angle::ToLeft => Op::Shl,
        Angle::ToRight => Op::Shr,
    }
}

/// Whether a symbol is the second sign of a shift.
pub fn is_second<'a>(angle: Angle, symbol: Symbol<'a>) -> bool
    ensures { result ≡ is_second (angle_of angle) (symbol_view symbol.entry) }
{
    match (angle, symbol) {
        (Angle::ToLeft, Symbol::Less(joined)) => joined,
        (Angle::ToRight, Symbol::Greater(joined)) => joined,
        _ => false,
    }
}

/// Whether an atom begins with the symbol.
pub fn starts_atom<'a>(symbol: Symbol<'a>) -> bool
    ensures { result ≡ starts_atom (symbol_view symbol.entry) }
{
    match symbol {
        Symbol::Lower(_) => true,
        Symbol::Upper(_) => true,
        Symbol::Number(_) => true,
        Symbol::True => true,
        Symbol::False => true,
        Symbol::Opening => true,
        Symbol::Unboxed => true,
        _ => false,
    }
}
