// What is asked of two types at which one cell is read.
ghost use Rattle.std.specs.Prelude.{◌≡◌, IfOk};
ghost use Rattle.cg_base.specs.Same.{same_type};
ghost use Rattle.cg_base.specs.Types.{type_of};
ghost use Rattle.cg_heaptext_def.specs.HeapText.{is_written as writes};
ghost use Rattle.cg_kinds.specs.Shapes.{shape as shape_of};

use cg_base::{Memory, Sigil, Ty};
use cg_kinds::{same, shape};
use std::alloc::Global;

// Whether two types have one shape. Only two that differ take memory.
pub(crate) fn same_shape(alloc: Global, a: &Ty, b: &Ty) -> Result<bool, Memory>
    ensures { IfOk result (λ is. is ≡ same_type (shape_of (type_of a.now)) (shape_of (type_of b.now))) }
{
    if same(a, b) {
        return Ok(true);
    }
    let first = shape(a.copy(alloc)?);
    let second = shape(b.copy(alloc)?);
    Ok(same(&first, &second))
}

// Whether a type is that of a cell that may be written.
pub(crate) fn is_written(ty: &Ty) -> bool
    ensures { result ≡ writes (type_of ty.now) }
{
    match ty {
        Ty::Abs(_, _, Sigil::W) | Ty::Fields(_, Sigil::W) => true,
        Ty::Abs(_, _, Sigil::R) | Ty::Fields(_, Sigil::R) => false,
        Ty::Abs(_, _, Sigil::U) | Ty::Fields(_, Sigil::U) => false,
        Ty::Var(_) | Ty::Seen(_) | Ty::Unit | Ty::Word(_) => false,
        Ty::Bool | Ty::Arrow(_, _) | Ty::Variant(_) => false,
    }
}
