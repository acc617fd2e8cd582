// Paths, operands and types, copied.
ghost use Rattle.std.specs.Prelude.{◌≡◌, IfOk};

use cg_base::{Items, Memory, Name};
use cg_ctree::{COpnd, CPath, CTy};
use std::alloc::Global;

// Equal names.
fn copy_names(alloc: Global, names: &Items<Name>) -> Result<Items<Name>, Memory>
    ensures { IfOk result (λ copies. copies ≡ names.now) }
{
    let mut copies = Items::new(alloc);
    for name in names.as_slice() {
        copies.push(name.copy(alloc)?)?;
    }
    Ok(copies)
}

/// An equal path. The one error is want of memory.
pub(crate) fn copy_path(alloc: Global, path: &CPath) -> Result<CPath, Memory>
    ensures { IfOk result (λ copy. copy ≡ path.now) }
{
    Ok(CPath {
        base: path.base.copy(alloc)?,
        arrow: path.arrow,
        members: copy_names(alloc, &path.members)?,
    })
}

/// An equal operand. The one error is want of memory.
pub(crate) fn copy_operand(alloc: Global, operand: &COpnd) -> Result<COpnd, Memory>
    ensures { IfOk result (λ copy. copy ≡ operand.now) }
{
    match operand {
        COpnd::Number(number) => Ok(COpnd::Number(*number)),
        COpnd::Path(path) => Ok(COpnd::Path(copy_path(alloc, path)?)),
    }
}

/// An equal type. The one error is want of memory.
pub(crate) fn copy_type(alloc: Global, ty: &CTy) -> Result<CTy, Memory>
    ensures { IfOk result (λ copy. copy ≡ ty.now) }
{
    match ty {
        CTy::Word(word) => Ok(CTy::Word(*word)),
        CTy::Struct(name) => Ok(CTy::Struct(name.copy(alloc)?)),
        CTy::Pointer(name) => Ok(CTy::Pointer(name.copy(alloc)?)),
    }
}
