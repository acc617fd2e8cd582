// Tables of abstract functions.
ghost use Rattle.std.specs.Prelude.{◌≡◌, IfOk, IsTrue};
ghost use Rattle.cg_base.specs.Types.{Tau, arrow, type_of};
ghost use Rattle.cg_value.specs.Fits.{fits};
ghost use Rattle.cg_value.specs.Foreign.{Foreign, IsLawful, first_order};
ghost use Rattle.cg_value.specs.Values.{value_of};

use crate::Value;
use cg_base::{Memory, Name, Ty};
use std::alloc::Global;

/// A table of abstract functions: what a source declares without a body, and a program gives (docs/LANGUAGE.md, "Abstract functions").
pub trait Extern {
    ghost foreign: { Self → Foreign };

    /// Whether an abstract type of this name is given. Such a type takes no arguments.
    fn owns(&self, ty: &Name) -> bool
        ensures { result ≡ (foreign self.now).owns ty.now };

    /// Whether a function of this name is known at some type. It is known at one type at most.
    fn names(&self, name: &Name) -> bool
        ensures { result ≡ (foreign self.now).names name.now };

    /// Whether a function of this name is known at this type, which is its whole one: an arrow without type variables and without
    /// further arrows, over abstract types that are owned.
    fn knows(&self, name: &Name, ty: &Ty) -> bool
        ensures { result ≡ (foreign self.now).knows name.now (type_of ty.now) };

    /// What a known function gives on an argument that fits; nothing is promised of others. Want of memory is its one refusal.
    fn value(&self, alloc: Global, name: &Name, arg: Value) -> Result<Value, Memory>
        ensures { (from to : Tau) → IsTrue ((foreign self.now).knows name.now (arrow from to)) → IsTrue (fits (first_order (foreign self.now)) from (value_of arg))
            → IfOk result (λ v. value_of v ≡ (foreign self.now).value name.now (value_of arg)) };

    /// What that costs beside the nodes that are evaluated, at most 1,048,576.
    fn cost(&self, name: &Name, arg: &Value) -> u64
        ensures { (from to : Tau) → IsTrue ((foreign self.now).knows name.now (arrow from to)) → IsTrue (fits (first_order (foreign self.now)) from (value_of arg.now))
            → result ≡ (foreign self.now).cost name.now (value_of arg.now) };

    ghost lawful: { (x : Self) → IsLawful (foreign x) };
}

/// The table that gives no type and knows no function.
#[derive(Drop)]
pub struct NoExtern;

impl Extern for NoExtern {
    ghost use Rattle.cg_value.specs.NoForeign.{no_foreign, none_is_lawful};

    ghost foreign = { λ _. no_foreign };

    ghost lawful = { λ _. none_is_lawful };

    fn owns(&self, _ty: &Name) -> bool {
        false
    }

    fn names(&self, _name: &Name) -> bool {
        false
    }

    fn knows(&self, _name: &Name, _ty: &Ty) -> bool {
        false
    }

    fn value(&self, _alloc: Global, _name: &Name, _arg: Value) -> Result<Value, Memory> {
        Ok(Value::Gone)
    }

    fn cost(&self, _name: &Name, _arg: &Value) -> u64 {
        0
    }
}
