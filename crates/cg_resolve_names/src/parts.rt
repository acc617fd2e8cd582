// The parts of expressions that have no expression in them. A fault that was found before stays.
#![tactic(auto, using(std::proofs::lemmas::Grind::common_steps, crate::proofs::PartSteps::part_steps))]

ghost use Rattle.std.specs.Prelude.{◌≡◌, ◌++◌, ◌∷◌, [], map, length, take, false, Err, OnOk, OnErr, if◌then◌else◌};
ghost use Rattle.cg_surface.specs.Patterns.{pattern_of};
ghost use Rattle.cg_surface.specs.Written.{written_of, to_types};
ghost use Rattle.cg_resolve_def.specs.Declared.{is_among};
ghost use Rattle.cg_resolve_def.specs.Expand.{types_length};
ghost use Rattle.cg_resolve_def.specs.Faults.{bound, mention_faults, pattern_faults, type_faults, types_faults, seen_faults};
ghost use Rattle.cg_resolve_declared.specs.Declarations.{entries_of, IsIndexed};
ghost use Rattle.cg_resolve_names.specs.Parts.{fault_again};
ghost use Rattle.cg_resolve_names.specs.Says.{GoesOn, Says};
ghost use Rattle.cg_resolve_names.specs.Scopes.{SameNames};

use crate::fault::NamingFault;
use crate::patterns::pattern_scope;
use crate::scope::Scope;
use crate::types::{check_count, check_type, check_types};
use cg_base::{Items, Name, Place};
use cg_core::At;
use cg_resolve_declared::{Declarations, library_function};
use cg_surface::{Pat, STy};
use std::alloc::Global;

/// A name and its type arguments.
#[inline(never)]
pub fn in_name(
    alloc: Global,
    declared: &Declarations<'_>,
    vars: &Scope<'_>,
    scope: &Scope<'_>,
    so_far: Result<(), NamingFault>,
    place: Place,
    name: &Name,
    types: &Items<STy>,
) -> Result<(), NamingFault>
    requires { IsIndexed declared.now }
    ensures { GoesOn so_far (mention_faults (entries_of declared.now) scope.now place name.now (types_length (to_types (map written_of types.now))) ++ types_faults (entries_of declared.now) vars.now (to_types (map written_of types.now))) result }
{
    so_far?;
    check_mention(declared, scope, place, name.bytes(), types.len())?;
    check_types(alloc, declared, vars, types.as_slice())
}

/// A written type.
#[inline(never)]
pub fn in_type(
    alloc: Global,
    declared: &Declarations<'_>,
    vars: &Scope<'_>,
    so_far: Result<(), NamingFault>,
    ty: &STy,
) -> Result<(), NamingFault>
    requires { IsIndexed declared.now }
    ensures { GoesOn so_far (type_faults (entries_of declared.now) vars.now (written_of ty.now)) result }
{
    match so_far {
        Ok(()) => check_type(alloc, declared, vars, ty),
        Err(fault) => Err(fault),
    }
}

/// Observed variables.
#[inline(never)]
pub fn in_seen(
    scope: &Scope<'_>,
    so_far: Result<(), NamingFault>,
    seen: &Items<At>,
) -> Result<(), NamingFault>
    ensures { GoesOn so_far (seen_faults scope.now seen.now) result }
{
    match so_far {
        Ok(()) => check_seen(scope, seen.as_slice()),
        Err(fault) => Err(fault),
    }
}

/// A pattern, and its variables.
#[inline(never)]
pub fn in_pattern<'a>(
    alloc: Global,
    so_far: Result<(), NamingFault>,
    pat: &'a Pat,
) -> (Scope<'a>, Result<(), NamingFault>)
    ensures says { GoesOn so_far (pattern_faults (pattern_of pat.now)) result.1 }
    ensures names { OnOk result.1 (result.0 ≡ bound (pattern_of pat.now)) }
{
    if so_far.is_err() {
        return (Scope::new(alloc), so_far);
    }
    match pattern_scope(alloc, pat) {
        Ok(bound) => (bound, Ok(())),
        Err(fault) => (Scope::new(alloc), Err(fault)),
    }
}

/// Variables, which come into scope.
#[inline(never)]
pub fn enter_bound<'a>(
    scope: &mut Scope<'a>,
    so_far: Result<(), NamingFault>,
    bound: Scope<'a>,
) -> Result<(), NamingFault>
    ensures says { GoesOn so_far [] result }
    ensures names { OnOk result (SameNames scope.new (bound.entry ++ scope.old)) }
    ensures kept { take (length scope.old) scope.new ≡ scope.old }
{
    so_far?;
    scope.enter_all(bound.names())?;
    Ok(())
}

/// A pattern, whose variables come into scope.
#[inline(never)]
pub fn enter_pattern<'a>(
    alloc: Global,
    scope: &mut Scope<'a>,
    so_far: Result<(), NamingFault>,
    pat: &'a Pat,
) -> Result<(), NamingFault>
    ensures says { GoesOn so_far (pattern_faults (pattern_of pat.now)) result }
    ensures names { OnOk result (SameNames scope.new (bound (pattern_of pat.now) ++ scope.old)) }
    ensures kept { take (length scope.old) scope.new ≡ scope.old }
{
    let (bound, inside) = in_pattern(alloc, so_far, pat);
    enter_bound(scope, inside, bound)
}

/// The name of a field, behind those before it, and whether it stands among them. No fault is told before its value is looked at.
#[inline(never)]
pub fn enter_field<'a>(
    before: &mut Scope<'a>,
    so_far: Result<(), NamingFault>,
    at: &'a At,
) -> (bool, Result<(), NamingFault>)
    ensures says { GoesOn so_far [] result.1 }
    ensures again { OnOk result.1 (result.0 ≡ is_among before.old at.now.name) }
    ensures err { OnErr result.1 (result.0 ≡ false) }
    ensures names { OnOk result.1 (before.new ≡ before.old ++ (if result.0 then [] else at.now.name ∷ [])) }
{
    if so_far.is_err() {
        return (false, so_far);
    }
    match before.enter(at.name.bytes()) {
        Ok(new) => (!new, Ok(())),
        Err(_) => (false, Err(NamingFault::Memory)),
    }
}

/// A field behind its value, where its name stands among those before it or doesn't.
#[inline(never)]
pub fn end_field(
    again: bool,
    place: Place,
    value: Result<(), NamingFault>,
) -> Result<(), NamingFault>
    ensures { result ≡ (if again then Err (fault_again place value) else value) }
{
    if again {
        Err(fault_again(place, value))
    } else {
        value
    }
}

// The first fault of a field whose name stands before it already, by what its value answers: an unknown name comes first where the
// field is written alone, so that it and its value stand at one place.
fn fault_again(place: Place, value: Result<(), NamingFault>) -> NamingFault
    ensures { result ≡ fault_again place value }
{
    match value {
        Err(NamingFault::N1(unknown)) if unknown == place => NamingFault::N1(unknown),
        Err(NamingFault::Memory) => NamingFault::Memory,
        _ => NamingFault::N2(place),
    }
}

// The fault of a name with so many type arguments: a variable has none, and hides a function. One of the library comes before one
// of the program.
fn check_mention(
    declared: &Declarations<'_>,
    scope: &Scope<'_>,
    place: Place,
    name: &[u8],
    given: usize,
) -> Result<(), NamingFault>
    requires { IsIndexed declared.now }
    ensures { Says (mention_faults (entries_of declared.now) scope.now place name.now given) result }
{
    if scope.holds(name) {
        return check_count(place, 0, given);
    }
    if let Some(function) = library_function(name) {
        return check_count(place, function.arity, given);
    }
    match declared.function_named(name) {
        None => Err(NamingFault::N1(place)),
        Some(function) => check_count(place, function.vars.len(), given),
    }
}

// The first fault of observed variables, which have to be in scope.
fn check_seen(scope: &Scope<'_>, seen: &[At]) -> Result<(), NamingFault>
    ensures { Says (seen_faults scope.now seen.now) result }
{
    for at in seen {
        if !scope.holds(at.name.bytes()) {
            return Err(NamingFault::N1(at.place));
        }
    }
    Ok(())
}
