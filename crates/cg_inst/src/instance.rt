// Instances of functions.
ghost use Rattle.std.specs.Prelude.{◌≡◌, ◌↔◌, IfOk, IsTrue};
ghost use Rattle.cg_inst.specs.Views.{instance_of};

use cg_base::{Fun, Items, Memory, Ty, copy_types};
use cg_kinds::same_types;
use std::alloc::Global;

/// A function at the types that stand for its type variables (docs/LANGUAGE.md, "Instances").
#[derive(Drop)]
pub struct Instance {
    pub fun: Fun,
    pub args: Items<Ty>,
}

impl Instance {
    /// The same function at equal types. Want of memory is its one refusal.
    pub fn copy(&self, alloc: Global) -> Result<Instance, Memory>
        ensures { IfOk result (λ instance. instance_of instance ≡ instance_of self.now) }
    {
        Ok(Instance {
            fun: self.fun,
            args: copy_types(alloc, &self.args)?,
        })
    }

    /// Whether another instance is this one: the same function at the same types, with their sigils and taken marks. It takes no memory.
    pub fn same(&self, other: &Instance) -> bool
        ensures { IsTrue result ↔ (instance_of self.now ≡ instance_of other.now) }
    {
        self.fun == other.fun && same_types(&self.args, &other.args)
    }
}
