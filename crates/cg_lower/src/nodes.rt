// The nodes of a body, in reading order.
#![tactic(auto)]

ghost use Rattle.std.specs.Prelude.{◌≡◌, List, map, IfOk};
ghost use Rattle.std.specs.Option.{option_copied};
ghost use Rattle.cg_core.specs.Kernels.{the_core};
ghost use Rattle.cg_typing.specs.Kept.{maybe_core};
ghost use Rattle.cg_lower.specs.Collected.{nodes_maybe};

use cg_base::Memory;
use cg_core::{Term, Typed};
use cg_typing::nodes_in;
use std::alloc::Global;

/// The nodes of a body in reading order, each before its parts (docs/LANGUAGE.md, "Instances"); none, where there is no body. Want of memory
/// is its one refusal.
pub(crate) fn nodes_of_body<'a>(
    alloc: Global,
    body: Option<&'a Term<Typed>>,
) -> Result<Vec<&'a Term<Typed>>, Memory>
    ensures { IfOk result (λ nodes. map (λ node. the_core node.now) nodes.items ≡ nodes_maybe (maybe_core (option_copied body.entry))) }
{
    match body {
        Some(core) => nodes_in(alloc, core),
        None => Ok(Vec::new(alloc)),
    }
}
