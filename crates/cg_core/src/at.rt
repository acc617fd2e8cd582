// Names and types, each with the place where it is written.
ghost use Rattle.std.specs.Prelude.{◌≡◌, IfOk};
ghost use Rattle.cg_core.specs.Terms.{arg_of};

use cg_base::{Memory, Name, Place, Ty};
use std::alloc::Global;

/// A name, and where it is written.
#[derive(Drop)]
pub struct At {
    pub place: Place,
    pub name: Name,
}

impl At {
    /// An equal name at the same place. Want of memory is its one refusal.
    pub fn copy(&self, alloc: Global) -> Result<At, Memory>
        ensures { IfOk result (λ at. at ≡ self.now) }
    {
        Ok(At {
            place: self.place,
            name: self.name.copy(alloc)?,
        })
    }
}

/// A written type, as a type argument, and where it is written.
#[derive(Drop)]
pub struct TyArg {
    pub place: Place,
    pub ty: Ty,
}

impl TyArg {
    /// An equal type at the same place. Want of memory is its one refusal.
    pub fn copy(&self, alloc: Global) -> Result<TyArg, Memory>
        ensures { IfOk result (λ arg. arg_of arg ≡ arg_of self.now) }
    {
        Ok(TyArg {
            place: self.place,
            ty: self.ty.copy(alloc)?,
        })
    }
}
