// Variables, looked up in a scope.
#![tactic(auto, using(std::proofs::lemmas::Grind::common_steps, crate::proofs::ScopeSteps::scope_steps))]

ghost use Rattle.std.specs.Prelude.{◌≡◌, ◌<◌, ◌≤◌, IfOk, MatchOption, length, ⊤};
ghost use Rattle.cg_core.specs.Kernels.{the_term};
ghost use Rattle.cg_core.specs.Terms.{term, var};
ghost use Rattle.cg_resolve_def.specs.Terms.{variable, has_name, or_zero, positions};
ghost use Rattle.cg_resolve_sites.specs.Sites.{entry_of, scope_of, scope_limit};

use cg_base::{Items, Memory, Place};
use cg_core::{At, Form, Seen, Term};
use std::alloc::Global;

/// The position of a variable: that of the innermost entry of its name. None where no entry has it.
pub fn variable(scope: &[Option<&[u8]>], name: &[u8]) -> Option<usize>
    ensures value { result ≡ variable (scope_of scope.now) name.now }
    ensures within { MatchOption result ⊤ (λ at. at < length scope.now) }
{
    for at in (0..scope.len()).rev() {
        if has_name(scope[at], name) {
            return Some(at);
        }
    }
    None
}

// Whether an entry has this name.
fn has_name(variable: Option<&[u8]>, name: &[u8]) -> bool
    ensures { result ≡ has_name name.now (entry_of variable.entry) }
{
    match variable {
        None => false,
        Some(own) => name == own,
    }
}

/// The term of a variable at a position.
pub fn variable_term(place: Place, at: usize) -> Term<Place>
    requires { at ≤ scope_limit }
    ensures { the_term result ≡ term place (var at) }
{
    Term {
        note: place,
        form: Form::Var(at as u32),
    }
}

/// Observed variables, by their positions. Want of memory is its one refusal.
#[inline(never)]
pub fn positions(
    alloc: Global,
    scope: &[Option<&[u8]>],
    seen: &Items<At>,
) -> Result<Items<Seen>, Memory>
    requires { length scope.now ≤ scope_limit }
    ensures { IfOk result (λ made. made ≡ positions (scope_of scope.now) seen.now) }
{
    let mut made = Items::new(alloc);
    for at in seen.as_slice() {
        let var = position(scope, at.name.bytes());
        made.push(Seen {
            var,
            place: at.place,
        })?;
    }
    Ok(made)
}

// The position of a variable, 0 where there is none.
fn position(scope: &[Option<&[u8]>], name: &[u8]) -> u32
    requires { length scope.now ≤ scope_limit }
    ensures { result ≡ or_zero (variable (scope_of scope.now) name.now) }
{
    match variable(scope, name) {
        None => 0,
        Some(at) => at as u32,
    }
}
