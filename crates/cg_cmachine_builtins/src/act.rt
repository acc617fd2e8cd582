// What a call does.
use cg_base::Word;

/// What a call does once its operands are judged.
#[derive(Clone, Copy)]
pub(crate) enum Act {
    /// The cell at an address is given back.
    Back(u64),
    /// An array of a width is asked for: the address of the allocator, and how many elements.
    Array(Word, u64, u32),
    /// A number of a word is given.
    Number(Word, u64),
    /// An element is written: the address of the array, the index and the number.
    Element(u64, u32, u64),
    /// Nothing is changed, and nothing is given.
    Nothing,
}
