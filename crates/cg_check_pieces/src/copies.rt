// Copies of what a term is written with.
ghost use Rattle.std.specs.Prelude.{◌≡◌, IfOk, map};
ghost use Rattle.cg_core.specs.Terms.{arg_of};

use cg_base::{Items, Memory};
use cg_core::{Seen, TyArg};
use std::alloc::Global;

/// Equal type arguments at the same places. Want of memory is its one refusal.
pub fn copied_arguments(alloc: Global, args: &Items<TyArg>) -> Result<Items<TyArg>, Memory>
    ensures { IfOk result (λ copies. map arg_of copies ≡ map arg_of args.now) }
{
    let mut copies = Items::new(alloc);
    for arg in args.as_slice() {
        copies.push(arg.copy(alloc)?)?;
    }
    Ok(copies)
}

/// Equal observers of a `let!`. Want of memory is its one refusal.
pub fn copied_observers(alloc: Global, observers: &Items<Seen>) -> Result<Items<Seen>, Memory>
    ensures { IfOk result (λ list. list ≡ observers.now) }
{
    let mut list = Items::new(alloc);
    for observer in observers.as_slice() {
        list.push(*observer)?;
    }
    Ok(list)
}
