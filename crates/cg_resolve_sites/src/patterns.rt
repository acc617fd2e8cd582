// What is seen of a pattern without binding it.
#![tactic(auto, using(std::proofs::lemmas::Grind::common_steps, crate::proofs::PatternSteps::pattern_steps), unfolding(cg_surface::specs::Patterns::to_patterns))]

ghost use Rattle.std.specs.Prelude.{◌≡◌, ◌≤◌, MatchOption, ⊤};
ghost use Rattle.cg_surface.specs.Patterns.{pattern_of};
ghost use Rattle.cg_resolve_def.specs.Terms.{its_name, inner_place};
ghost use Rattle.cg_resolve_sites.specs.Sites.{entry_of};
ghost use Rattle.cg_resolve_sites.specs.Stands.{under, parts_under};

use cg_base::Place;
use cg_surface::{Pat, PatForm};

/// The name that a pattern is without its parentheses, where it is one.
pub fn its_name(pattern: &Pat) -> Option<&[u8]>
    ensures { entry_of result ≡ its_name (pattern_of pattern.now) }
{
    match &pattern.form {
        PatForm::Name(name) => Some(name.bytes()),
        PatForm::Paren(inner) => its_name(inner),
        _ => None,
    }
}

/// The place of a pattern without its parentheses.
pub fn inner_place(pattern: &Pat) -> Place
    ensures { result ≡ inner_place (pattern_of pattern.now) }
{
    match &pattern.form {
        PatForm::Paren(inner) => inner_place(inner),
        _ => pattern.place,
    }
}

/// How many nodes stand above a term that is bound to a pattern. None where the term is left out.
pub fn under(pattern: &Pat) -> Option<usize>
    ensures value { result ≡ under (pattern_of pattern.now) }
    ensures small { MatchOption result ⊤ (λ nodes. nodes ≤ 2) }
{
    match &pattern.form {
        PatForm::Name(_) | PatForm::Any => Some(1),
        PatForm::Unit => Some(2),
        PatForm::Paren(inner) => under(inner),
        PatForm::Tuple(items) => under_parts(items.len()),
        PatForm::Fields(fields) | PatForm::Take(_, fields) => under_parts(fields.len()),
    }
}

// The same of a pattern with so many parts.
fn under_parts(parts: usize) -> Option<usize>
    ensures value { result ≡ parts_under parts }
    ensures small { MatchOption result ⊤ (λ nodes. nodes ≤ 2) }
{
    if parts == 0 { None } else { Some(1) }
}
