// How loosely operators bind.
ghost use Rattle.std.specs.Prelude.{◌≡◌};
ghost use Rattle.cg_parser_exprs_def.specs.Grammar.{level, left_of, right_of};

use cg_core::Op;

/// How loosely an operator binds: docs/LANGUAGE.md, "Operators".
pub fn level(op: Op) -> u32
    ensures { result ≡ level op }
{
    match op {
        Op::Complement | Op::Not => 2,
        Op::Mul | Op::Div | Op::Rem => 3,
        Op::Add | Op::Sub => 4,
        Op::Shl | Op::Shr => 5,
        Op::And => 6,
        Op::Xor => 7,
        Op::Or => 8,
        Op::Eq | Op::Ne | Op::Lt | Op::Gt | Op::Le | Op::Ge => 9,
        Op::Both => 10,
        Op::Either => 11,
    }
}

/// How loose its left operand may be.
pub fn left_of(op: Op) -> u32
    ensures { result ≡ left_of op }
{
    let own = level(op);
    if own == 9 { 8 } else { own }
}

/// How loose its right operand may be.
pub fn right_of(op: Op) -> u32
    ensures { result ≡ right_of op }
{
    level(op).saturating_sub(1)
}
