// Variables of patterns, which have to be apart.
#![tactic(auto, using(std::proofs::lemmas::Grind::common_steps, crate::proofs::PatternSteps::pattern_steps))]

ghost use Rattle.std.specs.Prelude.{◌≡◌, ◌++◌, ◌∷◌, [], List, map, IfOk, OnOk};
ghost use Rattle.cg_surface.specs.Patterns.{pattern_of, field_of, to_patterns, to_fields};
ghost use Rattle.cg_resolve_def.specs.Faults.{again, twins, bound, names_of, variables, all_variables, field_variables, pattern_faults};
ghost use Rattle.cg_resolve_names.specs.Says.{Says};

use crate::fault::NamingFault;
use crate::scope::Scope;
use cg_base::Place;
use cg_surface::{FPat, Pat, PatForm};
use std::alloc::Global;

/// The variables of a pattern, or the later of two of one name.
pub fn pattern_scope<'a>(alloc: Global, pat: &'a Pat) -> Result<Scope<'a>, NamingFault>
    ensures says { Says (pattern_faults (pattern_of pat.now)) result }
    ensures names { IfOk result (λ scope. scope ≡ bound (pattern_of pat.now)) }
{
    let mut scope = Scope::new(alloc);
    enter_pattern(&mut scope, pat)?;
    Ok(scope)
}

/// Brings a name into scope that has to be new there.
pub fn enter_new<'a>(scope: &mut Scope<'a>, place: Place, name: &'a [u8]) -> Result<(), NamingFault>
    ensures says { Says (again scope.old place name.now) result }
    ensures names { OnOk result (scope.new ≡ scope.old ++ name.now ∷ []) }
{
    if scope.enter(name)? {
        Ok(())
    } else {
        Err(NamingFault::N2(place))
    }
}

// Brings the variables of a pattern into scope, which have to be new there.
#[cycle(enter)]
fn enter_pattern<'a>(scope: &mut Scope<'a>, pat: &'a Pat) -> Result<(), NamingFault>
    ensures says { Says (twins scope.old (variables (pattern_of pat.now))) result }
    ensures names { OnOk result (scope.new ≡ scope.old ++ bound (pattern_of pat.now)) }
{
    match &pat.form {
        PatForm::Name(name) => enter_new(scope, pat.place, name.bytes()),
        PatForm::Any => Ok(()),
        PatForm::Unit => Ok(()),
        PatForm::Paren(inner) => enter_pattern(scope, inner),
        PatForm::Tuple(parts) => enter_patterns(scope, parts.as_slice()),
        PatForm::Fields(fields) => enter_fields(scope, fields.as_slice()),
        PatForm::Take(name, fields) => {
            enter_new(scope, pat.place, name.bytes())?;
            enter_fields(scope, fields.as_slice())
        }
    }
}

// The same of the components of a tuple, from left to right.
#[cycle(enter)]
fn enter_patterns<'a>(scope: &mut Scope<'a>, parts: &'a [Pat]) -> Result<(), NamingFault>
    ensures says { Says (twins scope.old (all_variables (to_patterns (map pattern_of parts.now)))) result }
    ensures names { OnOk result (scope.new ≡ scope.old ++ names_of (all_variables (to_patterns (map pattern_of parts.now)))) }
{
    for part in parts {
        enter_pattern(scope, part)?;
    }
    Ok(())
}

// The same of the fields of a record, from left to right.
#[cycle(enter)]
fn enter_fields<'a>(scope: &mut Scope<'a>, fields: &'a [FPat]) -> Result<(), NamingFault>
    ensures says { Says (twins scope.old (field_variables (to_fields (map field_of fields.now)))) result }
    ensures names { OnOk result (scope.new ≡ scope.old ++ names_of (field_variables (to_fields (map field_of fields.now)))) }
{
    for field in fields {
        enter_pattern(scope, &field.pat)?;
    }
    Ok(())
}
