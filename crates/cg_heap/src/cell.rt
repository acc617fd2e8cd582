// Cells.
ghost use Rattle.std.specs.Prelude.{◌≡◌};
ghost use Rattle.cg_heap.specs.Reps.{address_of, number_of};

use cg_base::Items;

/// One place of a machine value: a number, or an address; `Unset` holds nothing (docs/LANGUAGE.md, "Layout").
#[derive(Clone, Copy)]
pub enum Scalar {
    /// Nothing was written.
    Unset,
    /// A number.
    Word(u64),
    /// An address, counted from 1; 0 is the null address, at which no heap has a cell.
    Address(u64),
}

impl Scalar {
    /// The number that it is; 0 for any other.
    pub fn number(self) -> u64
        ensures { result ≡ number_of self }
    {
        match self {
            Scalar::Word(number) => number,
            _ => 0,
        }
    }

    /// The address that it is; 0 for any other.
    pub fn address(self) -> u64
        ensures { result ≡ address_of self }
    {
        match self {
            Scalar::Address(address) => address,
            _ => 0,
        }
    }
}

/// What a heap holds at an address.
#[derive(Drop)]
pub enum Cell {
    /// A boxed record: the slots of its fields, in order.
    Slots(Items<Scalar>),
    /// An array's elements.
    Words(Items<u64>),
    /// What an allocator will still answer, the next one first.
    Answers(Items<bool>),
}

/// What a cell holds.
#[derive(Clone, Copy, PartialEq, Eq)]
pub enum Form {
    /// Slots of fields.
    Slots,
    /// Elements of an array.
    Words,
    /// Answers of an allocator.
    Answers,
}

/// A cell to be made.
#[derive(Clone, Copy)]
pub enum Fresh {
    /// So many slots, none of them set.
    Slots(u32),
    /// So many elements, each of them 0.
    Words(u32),
}
