// A table of one abstract function.
ghost use Rattle.std.specs.Prelude.{◌≡◌};
ghost use Rattle.cg_base.specs.Types.{type_of};
ghost use Rattle.cg_eval_tests.specs.Halving.{is_u32, is_word_to_word as arrow_of};

use cg_base::{Memory, Name, Ty, Word};
use cg_value::{Extern, Value};
use std::alloc::Global;

/// The table of `half : U32 -> U32`, which gives half of a number, at a cost of 5.
#[derive(Drop)]
pub(crate) struct Halving;

// Whether a type is U32.
fn is_word(ty: &Ty) -> bool
    ensures { result ≡ is_u32 (type_of ty.now) }
{
    match ty {
        Ty::Word(Word::U32) => true,
        _ => false,
    }
}

/// Whether a type is U32 -> U32.
pub(crate) fn is_word_to_word(ty: &Ty) -> bool
    ensures { result ≡ arrow_of (type_of ty.now) }
{
    match ty {
        Ty::Arrow(from, to) => is_word(from) && is_word(to),
        _ => false,
    }
}

impl Extern for Halving {
    ghost use Rattle.cg_eval_tests.specs.Halving.{halving, halving_is_lawful};

    ghost foreign = { λ _. halving };

    ghost lawful = { λ _. halving_is_lawful };

    fn owns(&self, _ty: &Name) -> bool {
        false
    }

    fn names(&self, name: &Name) -> bool {
        name.bytes() == b"half".as_slice()
    }

    fn knows(&self, name: &Name, ty: &Ty) -> bool {
        name.bytes() == b"half".as_slice() && is_word_to_word(ty)
    }

    fn value(&self, _alloc: Global, _name: &Name, arg: Value) -> Result<Value, Memory> {
        Ok(Value::Num(arg.number() / 2))
    }

    fn cost(&self, _name: &Name, _arg: &Value) -> u64 {
        5
    }
}
