// Types that are kept while something may fail, and cores of a type.
ghost use Rattle.std.specs.Prelude.{◌≡◌, IfOk, Ok};
ghost use Rattle.cg_base.specs.Types.{type_of};
ghost use Rattle.cg_check_pieces.specs.Boxed.{in_box};
ghost use Rattle.cg_typing.specs.Parts.{given_by};

use cg_base::{Memory, Place, Ty};
use cg_core::{Form, Term, Typed};
use std::alloc::Global;

/// A core of this type and form.
pub fn plain(place: Place, ty: Ty, form: Form<Typed>) -> Term<Typed>
    ensures place { result.note.place ≡ place }
    ensures ty { result.note.ty ≡ ty }
    ensures form { result.form ≡ form }
{
    let note = Typed { place, ty };
    Term { note, form }
}

/// A type in a box, which is kept while something may fail: each way out lets go of a box by one call. Want of memory is its one refusal.
pub fn boxed(alloc: Global, made: Result<Ty, Memory>) -> Result<Box<Ty>, Memory>
    ensures { IfOk result (λ b. made ≡ Ok b.value) }
{
    match made {
        Ok(ty) => Ok(Box::new(alloc, ty)?),
        Err(memory) => Err(memory),
    }
}

/// An equal type in a box. Want of memory is its one refusal.
pub fn copied(alloc: Global, ty: &Ty) -> Result<Box<Ty>, Memory>
    ensures { IfOk result (λ b. in_box b ≡ type_of ty.now) }
{
    boxed(alloc, ty.copy(alloc))
}

/// What a function gives. Want of memory is its one refusal.
pub fn given(alloc: Global, ty: &Ty) -> Result<Box<Ty>, Memory>
    ensures { IfOk result (λ b. in_box b ≡ given_by (type_of ty.now)) }
{
    match ty {
        Ty::Arrow(_, to) => copied(alloc, to),
        _ => Ok(Box::new(alloc, Ty::Unit)?),
    }
}
