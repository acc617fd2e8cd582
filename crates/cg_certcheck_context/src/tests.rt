// What is tested at a node.
#![tactic(auto, using(crate::proofs::TestSteps::test_steps))]

ghost use Rattle.std.specs.Prelude.{◌≡◌, ◌&&◌};
ghost use Rattle.std.specs.Option.{option_copied};
ghost use Rattle.cg_base.specs.Types.{type_of};
ghost use Rattle.cg_certcheck_context.specs.Contexts.{context_of, entry_of};
ghost use Rattle.cg_check_pieces.specs.View.{bounds_of, way_of};
ghost use Rattle.cg_certcheck_def.specs.Events.{meets as meets_of};
ghost use Rattle.cg_certcheck_def.specs.Tests.{drops_all as drops_all_of, drops_but as drops_but_of, entry_drops as entry_drops_of, is_present as is_present_of};
ghost use Rattle.cg_typing.specs.Contexts.{look};

use crate::context::{Entry, is_present};
use crate::source::Source;
use cg_base::Ty;
use cg_kinds::{kinds_of, same};

/// Whether a type is the one that is checked against, if any is.
pub fn meets(direction: Option<&Ty>, ty: &Ty) -> bool
    ensures { result ≡ meets_of (way_of (option_copied direction.entry)) (type_of ty.now) }
{
    match direction {
        None => true,
        Some(wanted) => same(wanted, ty),
    }
}

// Whether a variable is gone or may be dropped.
fn entry_drops(source: &Source, entry: Entry) -> bool
    ensures { result ≡ entry_drops_of (bounds_of source.now.vars.now) (entry_of (bounds_of source.now.vars.now) entry.entry) }
{
    match entry {
        Entry::Gone => true,
        Entry::Present(ty) => kinds_of(ty, source.vars).drop,
        Entry::Droppable(_, _) => true,
        Entry::Observed(_) => true,
    }
}

/// Whether every present variable may be dropped.
#[tactic(auto, using(crate::proofs::TestSteps::drop_steps))]
pub fn drops_all(source: &Source, context: &[Entry]) -> bool
    ensures { result ≡ drops_all_of (bounds_of source.now.vars.now) (context_of (bounds_of source.now.vars.now) context.now) }
{
    for entry in context {
        if !entry_drops(source, *entry) {
            return false;
        }
    }
    true
}

// The same of all but one, which is used.
#[tactic(auto, using(crate::proofs::TestSteps::drop_steps))]
fn drops_but(source: &Source, context: &[Entry], used: usize) -> bool
    ensures { result ≡ drops_but_of (bounds_of source.now.vars.now) used (context_of (bounds_of source.now.vars.now) context.now) }
{
    if used >= context.len() {
        return drops_all(source, context);
    }
    drops_all(source, &context[..used]) && drops_all(source, &context[used + 1..])
}

/// Whether a leaf may end a context by using this variable: it is present, and every other present one may be dropped.
pub fn ends_with(source: &Source, context: &[Entry], used: usize) -> bool
    ensures { result ≡ (is_present_of (look (context_of (bounds_of source.now.vars.now) context.now) used) && drops_but_of (bounds_of source.now.vars.now) used (context_of (bounds_of source.now.vars.now) context.now)) }
{
    is_present(context, used) && drops_but(source, context, used)
}
