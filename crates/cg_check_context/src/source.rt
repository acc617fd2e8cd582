// What the pass goes by: the source, and the context of a part.
ghost use Rattle.std.specs.Prelude.{◌≡◌, IfOk, List};
ghost use Rattle.cg_base.specs.Types.{type_of};
ghost use Rattle.cg_typing.specs.Contexts.{push as push_of, drops as drops_of, shares as shares_of};
ghost use Rattle.cg_faults.specs.Plain.{plain_at};
ghost use Rattle.cg_check_context.specs.View.{Entry, entries_of, fresh, types_in};
ghost use Rattle.cg_check_pieces.specs.View.{bounds_of};

use cg_base::{Bound, Items, Memory, Ty};
use cg_core::KFun;
use std::alloc::Global;

/// What the pass over a body goes by: the functions of the source, and the type variables of the function at hand.
#[derive(Drop)]
pub struct Source<'a> {
    pub alloc: Global,
    pub functions: &'a Items<KFun>,
    pub vars: &'a Items<Bound>,
}

/// A variable of a context: its own type, and whether a `let!` observes it.
#[derive(Drop)]
pub struct Known {
    pub ty: Ty,
    pub observed: bool,
}

/// One variable more. Want of memory is its one refusal.
#[tactic(auto, using(crate::proofs::SourceSteps::source_steps))]
pub fn enter(context: &mut Vec<Known>, ty: Ty) -> Result<(), Memory>
    ensures { IfOk result (λ _. entries_of context.new.items ≡ push_of (entries_of context.old.items) (fresh (type_of ty))) }
{
    context.push(Known {
        ty,
        observed: false,
    })?;
    Ok(())
}

/// The last variable goes out of scope.
#[tactic(auto, using(crate::proofs::SourceSteps::source_steps))]
pub fn leave(context: &mut Vec<Known>)
    ensures { (p : List Entry) (e : Entry) → entries_of context.old.items ≡ push_of p e → entries_of context.new.items ≡ p }
{
    drop(context.pop());
}
