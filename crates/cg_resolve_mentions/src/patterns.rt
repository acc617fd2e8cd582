// Variables of patterns.
#![tactic(auto, using(std::proofs::lemmas::Grind::common_steps, crate::proofs::PatternSteps::pattern_steps))]

ghost use Rattle.std.specs.Prelude.{◌≡◌, ◌∷◌, ◌++◌, map, length, take, OnOk};
ghost use Rattle.cg_surface.specs.Patterns.{pattern_of, field_of, to_patterns, to_fields};
ghost use Rattle.cg_resolve_def.specs.Faults.{bound, names_of, all_variables, field_variables};
ghost use Rattle.cg_resolve_names.specs.Scopes.{SameNames};

use cg_base::Memory;
use cg_resolve_names::Scope;
use cg_surface::{FPat, Pat, PatForm};

/// Brings the variables of a pattern into scope, those that aren't there already, behind those of the scope. Want of memory is its one refusal.
#[cycle(enter)]
pub fn enter_pattern<'a>(scope: &mut Scope<'a>, pat: &'a Pat) -> Result<(), Memory>
    ensures names { OnOk result (SameNames scope.new (bound (pattern_of pat.now) ++ scope.old)) }
    ensures kept { take (length scope.old) scope.new ≡ scope.old }
{
    match &pat.form {
        PatForm::Name(name) => enter_name(scope, name.bytes()),
        PatForm::Any => Ok(()),
        PatForm::Unit => Ok(()),
        PatForm::Paren(inner) => enter_pattern(scope, inner),
        PatForm::Tuple(parts) => enter_patterns(scope, parts.as_slice()),
        PatForm::Fields(fields) => enter_fields(scope, fields.as_slice()),
        PatForm::Take(name, fields) => {
            enter_name(scope, name.bytes())?;
            enter_fields(scope, fields.as_slice())
        }
    }
}

// The same of a name.
fn enter_name<'a>(scope: &mut Scope<'a>, name: &'a [u8]) -> Result<(), Memory>
    ensures names { OnOk result (SameNames scope.new (name.now ∷ scope.old)) }
    ensures kept { take (length scope.old) scope.new ≡ scope.old }
{
    scope.enter(name)?;
    Ok(())
}

// The same of the components of a tuple, from left to right.
#[cycle(enter)]
fn enter_patterns<'a>(scope: &mut Scope<'a>, parts: &'a [Pat]) -> Result<(), Memory>
    ensures names { OnOk result (SameNames scope.new (names_of (all_variables (to_patterns (map pattern_of parts.now))) ++ scope.old)) }
    ensures kept { take (length scope.old) scope.new ≡ scope.old }
{
    for part in parts {
        enter_pattern(scope, part)?;
    }
    Ok(())
}

// The same of the fields of a record, from left to right.
#[cycle(enter)]
fn enter_fields<'a>(scope: &mut Scope<'a>, fields: &'a [FPat]) -> Result<(), Memory>
    ensures names { OnOk result (SameNames scope.new (names_of (field_variables (to_fields (map field_of fields.now))) ++ scope.old)) }
    ensures kept { take (length scope.old) scope.new ≡ scope.old }
{
    for field in fields {
        enter_pattern(scope, &field.pat)?;
    }
    Ok(())
}
