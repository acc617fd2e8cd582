// What a heap file holds.
use cg_base::Items;
use cg_heap::Scalar;
use cg_heaptext_contents::Placed;
use cg_value::Value;

/// What a heap file holds at the type of an argument (docs/LANGUAGE.md, "Heap files"): its cells with their addresses, in its order; the
/// argument's scalars, and the value that they stand for; and the addresses that the argument reaches to read and to write, each as often as
/// it is reached.
#[derive(Drop)]
pub struct Start {
    pub cells: Items<Placed>,
    pub arg: Items<Scalar>,
    pub value: Value,
    pub reads: Items<u64>,
    pub writes: Items<u64>,
}
