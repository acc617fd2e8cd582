// Sorts of operators.
ghost use Rattle.std.specs.Prelude.{◌≡◌};
ghost use Rattle.cg_base.specs.Types.{type_of};
ghost use Rattle.cg_typing.specs.Operators.{sort_of as sort_by, takes as takes_of};
ghost use Rattle.cg_typing_parts.specs.Views.{the_sort};

use crate::form::{is_bool, is_word};
use cg_base::Ty;
use cg_core::Op;

/// What operators take and give: arithmetic takes words and gives the same; `==` and `/=` take words or truth values, the
/// other comparisons words, and both give truth values; logic takes and gives truth values (docs/LANGUAGE.md, "Operators").
#[derive(Clone, Copy, PartialEq, Eq)]
pub enum Sort {
    Arithmetic,
    Equality,
    Order,
    Logic,
}

/// The sort of an operator.
pub fn sort_of(op: Op) -> Sort
    ensures { the_sort result ≡ sort_by op }
{
    match op {
        Op::Add | Op::Sub | Op::Mul | Op::Div | Op::Rem => Sort::Arithmetic,
        Op::And | Op::Or | Op::Xor | Op::Shl | Op::Shr | Op::Complement => Sort::Arithmetic,
        Op::Eq | Op::Ne => Sort::Equality,
        Op::Lt | Op::Gt | Op::Le | Op::Ge => Sort::Order,
        Op::Both | Op::Either | Op::Not => Sort::Logic,
    }
}

/// Whether operands of this type may stand at an operator of this sort. It takes no memory.
pub fn takes(sort: Sort, ty: &Ty) -> bool
    ensures { result ≡ takes_of (the_sort sort) (type_of ty.now) }
{
    match sort {
        Sort::Arithmetic | Sort::Order => is_word(ty),
        Sort::Equality => is_word(ty) || is_bool(ty),
        Sort::Logic => is_bool(ty),
    }
}
