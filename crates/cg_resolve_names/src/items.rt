// Names in the items of a program.
#![tactic(auto, using(std::proofs::lemmas::Grind::common_steps, crate::proofs::ItemSteps::item_steps))]

ghost use Rattle.std.specs.Prelude.{◌≡◌, ◌++◌, ◌∷◌, [], ℕ, List, map, OnOk, IfOk};
ghost use Rattle.cg_surface.specs.Programs.{entry_of};
ghost use Rattle.cg_resolve_def.specs.Declared.{function_named};
ghost use Rattle.cg_resolve_def.specs.Faults.{Before, declared_with, beforehand, again, twins, names_of, ats_of, var_names, vars_named, unsigned, type_faults, entry_faults, faults_from, program_faults};
ghost use Rattle.cg_resolve_declared.specs.Declarations.{entries_of, IsIndexed};
ghost use Rattle.cg_surface.specs.Exprs.{expr_of};
ghost use Rattle.cg_surface.specs.Patterns.{pattern_of};
ghost use Rattle.cg_surface.specs.Written.{written_of};
ghost use Rattle.cg_resolve_names.specs.Behind.{IsBehind, definition_faults};
ghost use Rattle.cg_resolve_names.specs.Says.{Says};
ghost use Rattle.cg_resolve_names.specs.Scopes.{SameNames};

use crate::exprs::check_expr;
use crate::fault::NamingFault;
use crate::patterns::{enter_new, pattern_scope};
use crate::scope::Scope;
use crate::types::check_type;
use cg_base::{Bound, Memory, Place};
use cg_core::At;
use cg_resolve_declared::{Declarations, arity_beforehand, library_function};
use cg_surface::{Item, Pat, SExpr, STy};
use std::alloc::Global;

// The names that the program declares behind: types, signatures and definitions.
#[derive(Drop)]
struct Behind<'a> {
    types: Scope<'a>,
    signatures: Scope<'a>,
    definitions: Scope<'a>,
}

/// The first fault of names of a program in reading order that no circle makes: N1, N2 or N4 (docs/LANGUAGE.md, "Names").
pub fn check_names(alloc: Global, declared: &Declarations<'_>) -> Result<(), NamingFault>
    requires { IsIndexed declared.now }
    ensures { Says (program_faults (entries_of declared.now)) result }
{
    let mut behind = no_names(alloc);
    for item in declared.items {
        check_item(alloc, declared, &mut behind, item)?;
    }
    Ok(())
}

// No names of the program.
fn no_names<'a>(alloc: Global) -> Behind<'a>
    ensures { IsBehind beforehand result }
{
    Behind {
        types: Scope::new(alloc),
        signatures: Scope::new(alloc),
        definitions: Scope::new(alloc),
    }
}

// Brings the name of a type into scope, which has to be new there, and none that is declared beforehand.
fn enter_type<'a>(scope: &mut Scope<'a>, at: &'a At) -> Result<(), NamingFault>
    ensures says { Says (again (beforehand.types ++ scope.old) at.now.place at.now.name) result }
    ensures names { OnOk result (scope.new ≡ scope.old ++ at.now.name ∷ []) }
{
    if arity_beforehand(at.name.bytes()).is_some() {
        return Err(NamingFault::N2(at.place));
    }
    enter_new(scope, at.place, at.name.bytes())
}

// The same of the name of a signature.
fn enter_signature<'a>(scope: &mut Scope<'a>, at: &'a At) -> Result<(), NamingFault>
    ensures says { Says (again (beforehand.signatures ++ scope.old) at.now.place at.now.name) result }
    ensures names { OnOk result (scope.new ≡ scope.old ++ at.now.name ∷ []) }
{
    if library_function(at.name.bytes()).is_some() {
        return Err(NamingFault::N2(at.place));
    }
    enter_new(scope, at.place, at.name.bytes())
}

// The first fault of an item, behind those before it.
fn check_item<'a>(
    alloc: Global,
    declared: &Declarations<'_>,
    behind: &mut Behind<'a>,
    item: &'a Item,
) -> Result<(), NamingFault>
    requires { IsIndexed declared.now }
    ensures says { (before : Before) → IsBehind before behind.old → Says (entry_faults (entries_of declared.now) before (entry_of item.now)) result }
    ensures grown { OnOk result ((before : Before) → IsBehind before behind.old → IsBehind (declared_with before (entry_of item.now)) behind.new) }
{
    match item {
        Item::Synonym { at, params, body } => {
            enter_type(&mut behind.types, at)?;
            check_synonym(alloc, declared, params.as_slice(), body)
        }
        Item::Abstract { at, params } => {
            enter_type(&mut behind.types, at)?;
            params_scope(alloc, params.as_slice())?;
            Ok(())
        }
        Item::Signature {
            at,
            vars,
            places,
            ty,
        } => {
            enter_signature(&mut behind.signatures, at)?;
            check_signature(alloc, declared, vars.as_slice(), places.as_slice(), ty)
        }
        Item::Define { at, param, body } => {
            check_signed(declared, at)?;
            enter_new(&mut behind.definitions, at.place, at.name.bytes())?;
            check_definition(alloc, declared, at, param, body)
        }
    }
}

// The first fault of names in the parameters and the body of a synonym.
fn check_synonym(
    alloc: Global,
    declared: &Declarations<'_>,
    params: &[At],
    body: &STy,
) -> Result<(), NamingFault>
    requires { IsIndexed declared.now }
    ensures { Says (twins [] params.now ++ type_faults (entries_of declared.now) (names_of params.now) (written_of body.now)) result }
{
    let vars = params_scope(alloc, params)?;
    check_type(alloc, declared, &vars, body)
}

// The first fault of names in the type variables and the type of a signature.
fn check_signature(
    alloc: Global,
    declared: &Declarations<'_>,
    vars: &[Bound],
    places: &[Place],
    ty: &STy,
) -> Result<(), NamingFault>
    requires { IsIndexed declared.now }
    ensures { Says (twins [] (ats_of vars.now places.now) ++ type_faults (entries_of declared.now) (var_names vars.now) (written_of ty.now)) result }
{
    check_apart(alloc, vars, places)?;
    let vars = vars_scope(alloc, vars)?;
    check_type(alloc, declared, &vars, ty)
}

// The fault of a definition without a signature.
fn check_signed(declared: &Declarations<'_>, at: &At) -> Result<(), NamingFault>
    requires { IsIndexed declared.now }
    ensures { Says (unsigned at.now.place (function_named (entries_of declared.now) at.now.name)) result }
{
    match declared.function_named(at.name.bytes()) {
        None => Err(NamingFault::N1(at.place)),
        Some(_) => Ok(()),
    }
}

// The first fault of names in the parameter and the body of a definition, among the type variables of its signature.
fn check_definition(
    alloc: Global,
    declared: &Declarations<'_>,
    at: &At,
    param: &Pat,
    body: &SExpr,
) -> Result<(), NamingFault>
    requires { IsIndexed declared.now }
    ensures { Says (definition_faults (entries_of declared.now) at.now (pattern_of param.now) (expr_of body.now)) result }
{
    let mut scope = pattern_scope(alloc, param)?;
    let vars = signature_scope(alloc, declared, at)?;
    check_expr(alloc, declared, &vars, &mut scope, body)
}

// The type variables of the signature of a definition.
fn signature_scope<'a>(
    alloc: Global,
    declared: &Declarations<'a>,
    at: &At,
) -> Result<Scope<'a>, Memory>
    requires { IsIndexed declared.now }
    ensures { IfOk result (λ scope. SameNames scope (vars_named (function_named (entries_of declared.now) at.now.name))) }
{
    match declared.function_named(at.name.bytes()) {
        None => Ok(Scope::new(alloc)),
        Some(function) => vars_scope(alloc, function.vars),
    }
}

// Parameters of a type, which have to be apart.
fn params_scope<'a>(alloc: Global, params: &'a [At]) -> Result<Scope<'a>, NamingFault>
    ensures says { Says (twins [] params.now) result }
    ensures names { IfOk result (λ scope. scope ≡ names_of params.now) }
{
    let mut scope = Scope::new(alloc);
    for at in params {
        enter_new(&mut scope, at.place, at.name.bytes())?;
    }
    Ok(scope)
}

// The fault of type variables at these places, which have to be apart.
fn check_apart(alloc: Global, vars: &[Bound], places: &[Place]) -> Result<(), NamingFault>
    ensures { Says (twins [] (ats_of vars.now places.now)) result }
{
    let mut scope = Scope::new(alloc);
    for index in 0..vars.len() {
        if index < places.len() {
            enter_new(&mut scope, places[index], vars[index].name.bytes())?;
        }
    }
    Ok(())
}

// Type variables.
fn vars_scope<'a>(alloc: Global, vars: &'a [Bound]) -> Result<Scope<'a>, Memory>
    ensures { IfOk result (λ scope. SameNames scope (var_names vars.now)) }
{
    let mut scope = Scope::new(alloc);
    for bound in vars {
        scope.enter(bound.name.bytes())?;
    }
    Ok(scope)
}
