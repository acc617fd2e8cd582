// What is done between the parts of a node.
#![tactic(auto, using(crate::proofs::MarkSteps::mark_steps))]

ghost use Rattle.std.specs.Prelude.{◌≡◌};
ghost use Rattle.cg_certcheck_context.specs.Contexts.{context_of};
ghost use Rattle.cg_certcheck_context.specs.Steps.{literal_reached};
ghost use Rattle.cg_certcheck_context.specs.View.{Agrees, cursor_of};
ghost use Rattle.cg_check_pieces.specs.View.{bounds_of};
ghost use Rattle.cg_typing.specs.Contexts.{first as first_of};
ghost use Rattle.cg_typing.specs.Trees.{first_marks, later_marks};

use cg_base::Items;
use cg_cert::CertFault;
use cg_certcheck_context::{Cursor, Entry, Source, firsts, reach_literal};
use cg_core::Mark;

/// A literal that stands left of its guide: it is reached first.
#[inline(never)]
pub fn reach_left(
    source: &Source,
    context: &[Entry],
    marks: &[Mark],
    at: Cursor,
) -> Result<Cursor, CertFault>
    ensures { Agrees (cursor_of source.now.nodes.now) result (literal_reached (bounds_of source.now.vars.now) (first_of marks.now (context_of (bounds_of source.now.vars.now) context.now)) (cursor_of source.now.nodes.now at)) }
{
    let side = firsts(source, marks, context)?;
    reach_literal(source, side.as_slice(), at)
}

/// The first mark string; no marks, where there is none.
pub fn next_marks(strings: &[Items<Mark>]) -> &[Mark]
    ensures { result.now ≡ first_marks strings.now }
{
    match strings {
        [] => &[],
        [marks, ..] => marks.as_slice(),
    }
}

/// The later ones.
pub fn later_strings(strings: &[Items<Mark>]) -> &[Items<Mark>]
    ensures { result.now ≡ later_marks strings.now }
{
    match strings {
        [] => strings,
        [_, rest @ ..] => rest,
    }
}
