// Small tests on terms, on parts of types and on observers.
ghost use Rattle.std.specs.Prelude.{◌≡◌};
ghost use Rattle.std.specs.Option.{option_copied};
ghost use Rattle.cg_base.specs.Types.{type_of};
ghost use Rattle.cg_core.specs.Kernels.{the_term};
ghost use Rattle.cg_typing_parts.specs.Views.{piece_at};
ghost use Rattle.cg_check_pieces.specs.View.{is_seen_at as is_seen_at_of, way_of};
ghost use Rattle.cg_typing.specs.Parts as parts;
ghost use Rattle.cg_typing.specs.Rules.{is_literal as literal_of, second_branch};

use cg_base::{Part, Place, Ty};
use cg_core::{Form, Term};

/// Whether a term is a literal.
pub fn is_literal(term: &Term<Place>) -> bool
    ensures { result ≡ literal_of (the_term term.now) }
{
    matches!(term.form, Form::Lit(_))
}

/// The direction of a second branch: that of both, or the type of the first one.
pub fn other_way<'a>(direction: Option<&'a Ty>, first: &'a Ty) -> Option<&'a Ty>
    ensures { way_of (option_copied result) ≡ second_branch (way_of (option_copied direction.entry)) (type_of first.now) }
{
    match direction {
        Some(wanted) => Some(wanted),
        None => Some(first),
    }
}

/// Whether a part is there.
pub fn is_there(part: Option<&Part>) -> bool
    ensures { result ≡ parts.is_there (piece_at (option_copied part.entry)) }
{
    part.is_some()
}

/// Whether a part is there and isn't taken.
pub fn is_left(part: Option<&Part>) -> bool
    ensures { result ≡ parts.is_left (piece_at (option_copied part.entry)) }
{
    match part {
        Some(part) => !part.taken,
        None => false,
    }
}

/// Whether the variable at a position is among those that a `let!` observes, which are listed by position.
#[tactic(auto, using(crate::proofs::SeenSteps::seen_steps))]
pub fn is_seen_at(seen: &[Option<Place>], var: usize) -> bool
    ensures { result ≡ is_seen_at_of seen.now var }
{
    var < seen.len() && seen[var].is_some()
}
