// Types as C has them, and what arrows give.
#![tactic(auto, unfolding(cg_base::specs::Types::to_taus, cg_base::specs::Types::to_parts), using(crate::proofs::TypeSteps::type_steps))]

ghost use Rattle.std.specs.Prelude.{◌≡◌, IfOk, MatchOption, map};
ghost use Rattle.cg_base.specs.Types.{type_of, unit};
ghost use Rattle.cg_lower_def.specs.CTypes.{record_struct};
ghost use Rattle.cg_lower_def.specs.Lowered.{typed as typed_in};
ghost use Rattle.cg_typing.specs.Library.{array as array_of};
ghost use Rattle.cg_typing.specs.Parts.{given_by};
ghost use Rattle.cg_update.specs.Turns.{fields_in};
ghost use Rattle.cg_lower_library.specs.Codes.{struct_in};
ghost use Rattle.cg_lower_nodes.specs.Kept.{kept_of, whole_of};

use cg_base::{Items, Memory, Name, Sigil, Ty};
use cg_ctree::CTy;
use cg_lower_nodes::Lowering;
use std::alloc::Global;

// What an arrow gives; None, where it is unit because there is none.
pub(crate) fn result_of(ty: &Ty) -> Option<&Ty>
    ensures { MatchOption result (given_by (type_of ty.now) ≡ unit) (λ t. given_by (type_of ty.now) ≡ type_of t.now) }
{
    match ty {
        Ty::Arrow(_, to) => Some(to),
        _ => None,
    }
}

// A type as C has it.
pub(crate) fn typed(alloc: Global, state: &mut Lowering, ty: &Ty) -> Result<CTy, Memory>
    ensures c_type { IfOk result (λ c. c ≡ typed_in (whole_of state.old) (type_of ty.now)) }
    ensures kept { kept_of state.new ≡ kept_of state.old }
{
    state.structs.c_type(alloc, ty)
}

// What an arrow gives, as C has it.
pub(crate) fn typed_result(alloc: Global, state: &mut Lowering, ty: &Ty) -> Result<CTy, Memory>
    ensures c_type { IfOk result (λ c. c ≡ typed_in (whole_of state.old) (given_by (type_of ty.now))) }
    ensures kept { kept_of state.new ≡ kept_of state.old }
{
    match result_of(ty) {
        Some(to) => typed(alloc, state, to),
        None => typed(alloc, state, &Ty::Unit),
    }
}

// The struct of a type as C has it; none, where this is a word.
fn struct_name(alloc: Global, ty: CTy) -> Result<Name, Memory>
    ensures { IfOk result (λ name. name ≡ struct_in ty) }
{
    match ty {
        CTy::Struct(name) => Ok(name),
        CTy::Pointer(name) => Ok(name),
        CTy::Word(_) => Name::new(alloc, &[]),
    }
}

// The type of a record, or of one without fields, where it is none, as C has it.
fn typed_record(alloc: Global, state: &mut Lowering, ty: &Ty) -> Result<CTy, Memory>
    ensures name { IfOk result (λ c. struct_in c ≡ record_struct (whole_of state.old).numbered (fields_in (type_of ty.now))) }
    ensures kept { kept_of state.new ≡ kept_of state.old }
{
    match ty {
        Ty::Fields(_, _) => typed(alloc, state, ty),
        _ => typed(alloc, state, &Ty::Fields(Items::new(alloc), Sigil::U)),
    }
}

// The name of the struct of a record; of one without fields, where it is none.
pub(crate) fn record_name(alloc: Global, state: &mut Lowering, ty: &Ty) -> Result<Name, Memory>
    ensures name { IfOk result (λ name. name ≡ record_struct (whole_of state.old).numbered (fields_in (type_of ty.now))) }
    ensures kept { kept_of state.new ≡ kept_of state.old }
{
    let shown = typed_record(alloc, state, ty)?;
    struct_name(alloc, shown)
}

// Arrays of a type.
pub(crate) fn array(alloc: Global, element: &Ty) -> Result<Ty, Memory>
    ensures { IfOk result (λ ty. type_of ty ≡ array_of (type_of element.now)) }
{
    let mut args = Items::new(alloc);
    args.push(element.copy(alloc)?)?;
    let name = Name::new(alloc, b"WordArray")?;
    Ok(Ty::Abs(name, args, Sigil::W))
}
