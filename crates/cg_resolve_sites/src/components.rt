// The names of components.
ghost use Rattle.std.specs.Prelude.{◌≡◌, ◌<◌, ◌^◌, IfOk};
ghost use Rattle.cg_resolve_def.specs.Expand.{component};

use cg_base::{Memory, Name};
use std::alloc::Global;

/// The name of the component at a position of a tuple, counted from 0 (docs/LANGUAGE.md, "Desugaring"). Want of memory is its
/// one refusal.
#[inline(never)]
pub fn component(alloc: Global, index: usize) -> Result<Name, Memory>
    requires { index < 2 ^ 63 }
    ensures { IfOk result (λ name. name ≡ component index) }
{
    let number = index + 1;
    let text = format!(in alloc; "p{number}")?;
    Name::new(alloc, text.as_bytes())
}
