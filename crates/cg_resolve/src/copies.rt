// Type variables, copied, and their names.
ghost use Rattle.std.specs.Prelude.{◌≡◌, IfOk};
ghost use Rattle.cg_resolve_declared.specs.Tables.{texts};
ghost use Rattle.cg_resolve_def.specs.Faults.{var_names};

use cg_base::{Bound, Items, Memory};
use std::alloc::Global;

/// Equal type variables. Want of memory is the one refusal.
pub fn copy_bounds(alloc: Global, vars: &[Bound]) -> Result<Items<Bound>, Memory>
    ensures { IfOk result (λ copies. copies ≡ vars.now) }
{
    let mut copies = Items::new(alloc);
    for bound in vars {
        copies.push(Bound {
            name: bound.name.copy(alloc)?,
            kinds: bound.kinds,
        })?;
    }
    Ok(copies)
}

/// The names of type variables. Want of memory is the one refusal.
pub fn names_of<'a>(alloc: Global, vars: &'a [Bound]) -> Result<Vec<&'a [u8]>, Memory>
    ensures { IfOk result (λ names. texts names.items ≡ var_names vars.now) }
{
    let mut names = Vec::new(alloc);
    for bound in vars {
        names.push(bound.name.bytes())?;
    }
    Ok(names)
}
