// What an allocator grants and refuses.
#![tactic(auto, using(crate::proofs::AllocateSteps::allocate_steps))]

ghost use Rattle.std.specs.Prelude.{◌≡◌, [], ◌∷◌, ◌+◌, ◌<◌, ◌^◌, IfOk, OnErr, OnOk};
ghost use Rattle.cg_heap.specs.declared.cell.Scalar.TheVariants as scalar;
ghost use Rattle.cg_heap.specs.Stored.{changed, with_fresh, without_answer};
ghost use Rattle.cg_lib_heap.specs.Library.{next_at};

use crate::scalars::four;
use cg_base::{Items, Memory};
use cg_heap::{Fresh, Scalar, Store};
use std::alloc::Global;

/// Whether an allocator's next answer is yes; no, where none is left.
pub(crate) fn next_answer<S: Store>(store: &S, at: u64) -> bool
    ensures { result ≡ next_at at (S.stored store.now) }
{
    store.answer(at, 0).unwrap_or(false)
}

/// Takes an allocator's answer off and makes a cell: gives the allocator, and the address of the cell as what was made. Without
/// memory nothing has changed.
pub(crate) fn grant<S: Store>(
    alloc: Global,
    at: u64,
    fresh: Fresh,
    store: &mut S,
) -> Result<Items<Scalar>, Memory>
    requires top { (S.stored store.old).top < 2 ^ 63 }
    ensures result { IfOk result (λ us. us ≡ scalar.Address at ∷ scalar.Word 1 ∷ scalar.Unset ∷ scalar.Address ((S.stored store.old).top + 1) ∷ []) }
    ensures store { OnOk result (S.stored store.new ≡ with_fresh fresh (changed without_answer at (S.stored store.old))) }
    ensures err { OnErr result (S.stored store.new ≡ S.stored store.old) }
{
    // the address is written once all memory is taken; `len` says for the proof that no cell stands above `top`
    let mut given = four(
        alloc,
        Scalar::Address(at),
        Scalar::Word(1),
        Scalar::Unset,
        Scalar::Unset,
    )?;
    let _length = store.len(at);
    let made = store.add(fresh)?;
    store.pop(at);
    given.as_mut_slice()[3] = Scalar::Address(made);
    Ok(given)
}

/// Takes an allocator's answer off and makes nothing: gives the allocator, and that nothing was made. Without memory nothing has
/// changed.
pub(crate) fn refuse<S: Store>(
    alloc: Global,
    at: u64,
    store: &mut S,
) -> Result<Items<Scalar>, Memory>
    ensures result { IfOk result (λ us. us ≡ scalar.Address at ∷ scalar.Word 0 ∷ scalar.Word 0 ∷ scalar.Unset ∷ []) }
    ensures store { OnOk result (S.stored store.new ≡ changed without_answer at (S.stored store.old)) }
    ensures err { OnErr result (S.stored store.new ≡ S.stored store.old) }
{
    let given = four(
        alloc,
        Scalar::Address(at),
        Scalar::Word(0),
        Scalar::Word(0),
        Scalar::Unset,
    )?;
    store.pop(at);
    Ok(given)
}
