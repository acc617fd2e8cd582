// Names in written types.
#![tactic(auto, using(std::proofs::lemmas::Grind::common_steps, crate::proofs::TypeSteps::type_steps))]

ghost use Rattle.std.specs.Prelude.{◌≡◌, ◌++◌, ◌∷◌, [], map, OnOk};
ghost use Rattle.cg_surface.specs.Written.{written_of, field_of, alt_of, to_types, to_fields, to_alts};
ghost use Rattle.cg_resolve_def.specs.Declared.{type_arity};
ghost use Rattle.cg_resolve_def.specs.Faults.{counted, name_faults, type_faults, types_faults, fields_faults, alts_faults};
ghost use Rattle.cg_resolve_declared.specs.Declarations.{entries_of, IsIndexed};
ghost use Rattle.cg_resolve_names.specs.Says.{Says};
ghost use Rattle.cg_resolve_names.specs.Parts.{field_faults, alternative_faults};

use crate::fault::NamingFault;
use crate::patterns::enter_new;
use crate::scope::Scope;
use cg_base::Place;
use cg_resolve_declared::{Declarations, arity_beforehand, is_variable};
use cg_surface::{SAlt, SPart, STy, STyForm};
use std::alloc::Global;

/// The first fault of names in a written type, among these type variables.
#[cycle(check_type)]
pub fn check_type(
    alloc: Global,
    declared: &Declarations<'_>,
    vars: &Scope<'_>,
    ty: &STy,
) -> Result<(), NamingFault>
    requires { IsIndexed declared.now }
    ensures { Says (type_faults (entries_of declared.now) vars.now (written_of ty.now)) result }
{
    match &ty.form {
        STyForm::Name(name, args) => {
            check_type_name(declared, vars, ty.place, name.bytes(), args.len())?;
            check_types(alloc, declared, vars, args.as_slice())
        }
        STyForm::Unit => Ok(()),
        STyForm::Tuple(parts) => check_types(alloc, declared, vars, parts.as_slice()),
        STyForm::Paren(inner) => check_type(alloc, declared, vars, inner),
        STyForm::Arrow(from, to) => {
            check_type(alloc, declared, vars, from)?;
            check_type(alloc, declared, vars, to)
        }
        STyForm::Fields(fields, _) => check_fields(alloc, declared, vars, fields.as_slice()),
        STyForm::Variant(choices) => check_alternatives(alloc, declared, vars, choices.as_slice()),
        STyForm::Bang(inner) => check_type(alloc, declared, vars, inner),
        STyForm::TakeSome(inner, _) => check_type(alloc, declared, vars, inner),
        STyForm::TakeAll(inner, _) => check_type(alloc, declared, vars, inner),
    }
}

/// The same of several types, from left to right.
#[cycle(check_type)]
pub fn check_types(
    alloc: Global,
    declared: &Declarations<'_>,
    vars: &Scope<'_>,
    types: &[STy],
) -> Result<(), NamingFault>
    requires { IsIndexed declared.now }
    ensures { Says (types_faults (entries_of declared.now) vars.now (to_types (map written_of types.now))) result }
{
    for ty in types {
        check_type(alloc, declared, vars, ty)?;
    }
    Ok(())
}

/// The fault of a number of arguments, where another is wanted.
pub fn check_count(place: Place, wanted: usize, given: usize) -> Result<(), NamingFault>
    ensures { Says (counted place wanted given) result }
{
    if given == wanted {
        Ok(())
    } else {
        Err(NamingFault::N4(place))
    }
}

// The fault of the name of a type with so many arguments.
fn check_type_name(
    declared: &Declarations<'_>,
    vars: &Scope<'_>,
    place: Place,
    name: &[u8],
    given: usize,
) -> Result<(), NamingFault>
    requires { IsIndexed declared.now }
    ensures { Says (name_faults (entries_of declared.now) vars.now place name.now given) result }
{
    if is_variable(name) {
        return if vars.holds(name) {
            check_count(place, 0, given)
        } else {
            Err(NamingFault::N1(place))
        };
    }
    match arity(declared, name) {
        None => Err(NamingFault::N1(place)),
        Some(wanted) => check_count(place, wanted, given),
    }
}

// How many arguments a type has, where it is declared.
fn arity(declared: &Declarations<'_>, name: &[u8]) -> Option<usize>
    requires { IsIndexed declared.now }
    ensures { result ≡ type_arity (entries_of declared.now) name.now }
{
    if let Some(arity) = arity_beforehand(name) {
        return Some(arity);
    }
    match declared.type_named(name) {
        None => None,
        Some(ty) => Some(ty.params.len()),
    }
}

// The first fault of names in the fields of a record, which have to be apart.
#[cycle(check_type)]
fn check_fields(
    alloc: Global,
    declared: &Declarations<'_>,
    vars: &Scope<'_>,
    fields: &[SPart],
) -> Result<(), NamingFault>
    requires { IsIndexed declared.now }
    ensures { Says (fields_faults (entries_of declared.now) vars.now (to_fields (map field_of fields.now))) result }
{
    let mut before = Scope::new(alloc);
    for field in fields {
        check_field(alloc, declared, vars, &mut before, field)?;
    }
    Ok(())
}

// The same of a field, behind those before it.
#[cycle(check_type)]
fn check_field<'a>(
    alloc: Global,
    declared: &Declarations<'_>,
    vars: &Scope<'_>,
    before: &mut Scope<'a>,
    field: &'a SPart,
) -> Result<(), NamingFault>
    requires { IsIndexed declared.now }
    ensures says { Says (field_faults (entries_of declared.now) vars.now before.old (field_of field.now)) result }
    ensures names { OnOk result (before.new ≡ before.old ++ (field_of field.now).at.name ∷ []) }
{
    enter_new(before, field.at.place, field.at.name.bytes())?;
    check_type(alloc, declared, vars, &field.ty)
}

// The first fault of names in the alternatives of a variant type, which have to be apart.
#[cycle(check_type)]
fn check_alternatives(
    alloc: Global,
    declared: &Declarations<'_>,
    vars: &Scope<'_>,
    choices: &[SAlt],
) -> Result<(), NamingFault>
    requires { IsIndexed declared.now }
    ensures { Says (alts_faults (entries_of declared.now) vars.now (to_alts (map alt_of choices.now))) result }
{
    let mut before = Scope::new(alloc);
    for choice in choices {
        check_alternative(alloc, declared, vars, &mut before, choice)?;
    }
    Ok(())
}

// The same of an alternative, behind those before it.
#[cycle(check_type)]
fn check_alternative<'a>(
    alloc: Global,
    declared: &Declarations<'_>,
    vars: &Scope<'_>,
    before: &mut Scope<'a>,
    choice: &'a SAlt,
) -> Result<(), NamingFault>
    requires { IsIndexed declared.now }
    ensures says { Says (alternative_faults (entries_of declared.now) vars.now before.old (alt_of choice.now)) result }
    ensures names { OnOk result (before.new ≡ before.old ++ (alt_of choice.now).at.name ∷ []) }
{
    enter_new(before, choice.at.place, choice.at.name.bytes())?;
    match &choice.ty {
        None => Ok(()),
        Some(ty) => check_type(alloc, declared, vars, ty),
    }
}
