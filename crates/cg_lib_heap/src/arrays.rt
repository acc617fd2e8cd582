// Arrays: their length, their elements, and what is written into them.
#![tactic(auto, using(crate::proofs::ArraySteps::array_steps))]

ghost use Rattle.std.specs.Prelude.{◌≡◌, ◌<◌, ◌^◌, get_or, length};
ghost use Rattle.cg_heap.specs.Stored.{changed, with_element};
ghost use Rattle.cg_lib_heap.specs.Library.{HasWords, words_at};

use cg_heap::{Scalar, Store};

/// How many elements the array at an address has.
pub(crate) fn length_at<S: Store>(store: &S, at: u64) -> u64
    requires { HasWords at (S.stored store.now) }
    ensures length { result ≡ length (words_at at (S.stored store.now)) }
    ensures small { result < 2 ^ 32 }
{
    match store.len(at) {
        Some(length) => length as u64,
        None => 0,
    }
}

/// An element of the array at an address; 0, where there is none.
pub(crate) fn element_at<S: Store>(store: &S, at: u64, index: u64) -> u64
    requires { HasWords at (S.stored store.now) }
    ensures { result ≡ get_or (words_at at (S.stored store.now)) index 0 }
{
    if index >= length_at(store, at) {
        return 0;
    }
    store
        .get(at, index as u32)
        .unwrap_or(Scalar::Unset)
        .number()
}

/// Writes an element of the array at an address, where there is one.
pub(crate) fn put_element_at<S: Store>(store: &mut S, at: u64, index: u64, number: u64)
    ensures { S.stored store.new ≡ changed (with_element index number) at (S.stored store.old) }
{
    let length = store.len(at).unwrap_or(0);
    if index < length as u64 {
        store.set_element(at, index as u32, number);
    }
}
