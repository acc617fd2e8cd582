// Tables of abstract functions, on heaps.
ghost use Rattle.std.specs.Prelude.{◌≡◌, ◌+◌, ◌<◌, ◌^◌, IfOk, OnErr, OnOk, Some};
ghost use Rattle.cg_heap.specs.Calls.{Answer, IsGiven};
ghost use Rattle.cg_heap.specs.ForeignHeaps.{ForeignHeap, IsLawfulOnHeaps, most_made};

use crate::{Scalar, Store};
use cg_base::{Items, Memory, Name};
use cg_value::{Extern, NoExtern};
use std::alloc::Global;

/// What a call of an abstract function gives: its result, and the addresses of the cells that it made and freed.
#[derive(Drop)]
pub struct Called {
    /// The result's scalars.
    pub value: Items<Scalar>,
    /// The addresses of the cells that were made, in order.
    pub made: Items<u64>,
    /// The addresses of the cells that were freed.
    pub freed: Items<u64>,
}

/// A function of a C program without a body, and the abstract function of a table that it is.
#[derive(Drop)]
pub struct Link {
    /// The function's name in the C program.
    pub c: Name,
    /// The abstract function's name.
    pub name: Name,
}

/// A table of abstract functions that also says what they do on heaps (docs/LANGUAGE.md, "Abstract functions").
pub trait ExternHeap: Extern {
    ghost on_heaps: { Self → ForeignHeap };

    /// What a call costs that the table answers, as it does every call of a known function on scalars that represent a value that it
    /// takes, and no other; nothing is promised of others.
    fn steps<S: Store>(&self, name: &Name, arg: &Items<Scalar>, store: &S) -> u64
        ensures { (answer : Answer) → (on_heaps self.now).asked name.now arg.now (S.stored store.now) ≡ Some answer → result ≡ answer.cost };

    /// Carries such a call out; nothing is promised of others but that, where there is no memory, nothing has changed. All memory is
    /// taken first.
    fn run<S: Store>(
        &self,
        alloc: Global,
        name: &Name,
        arg: &Items<Scalar>,
        store: &mut S,
    ) -> Result<Called, Memory>
        requires { (S.stored store.old).top + most_made < 2 ^ 63 }
        ensures called { (answer : Answer) → (on_heaps self.now).asked name.now arg.now (S.stored store.old) ≡ Some answer
            → IfOk result (λ called. IsGiven called.value called.made called.freed answer.out) }
        ensures store { (answer : Answer) → (on_heaps self.now).asked name.now arg.now (S.stored store.old) ≡ Some answer
            → OnOk result (S.stored store.new ≡ answer.out.store) }
        ensures err { OnErr result (S.stored store.new ≡ S.stored store.old) };

    ghost lawful_on_heaps: { (x : Self) → IsLawfulOnHeaps (Self.foreign x) (on_heaps x) };
}

impl ExternHeap for NoExtern {
    ghost use Rattle.cg_heap.specs.NoForeignHeap.{no_foreign_heap, none_is_lawful_on_heaps};

    ghost on_heaps = { λ _. no_foreign_heap };

    ghost lawful_on_heaps = { λ _. none_is_lawful_on_heaps };

    fn steps<S: Store>(&self, _name: &Name, _arg: &Items<Scalar>, _store: &S) -> u64 {
        0
    }

    fn run<S: Store>(
        &self,
        alloc: Global,
        _name: &Name,
        _arg: &Items<Scalar>,
        _store: &mut S,
    ) -> Result<Called, Memory> {
        Ok(Called {
            value: Items::new(alloc),
            made: Items::new(alloc),
            freed: Items::new(alloc),
        })
    }
}
