// Words, sigils and kinds.
use crate::Name;

/// A word: an unsigned number of 8, 16, 32 or 64 bits.
#[derive(Clone, Copy, Debug, PartialEq, Eq, Hash)]
pub enum Word {
    U8,
    U16,
    U32,
    U64,
}

/// How a record or an abstract type is held: behind a pointer to read, behind one to write, or unboxed
/// (the paper's sigils, section 2).
#[derive(Clone, Copy, Debug, PartialEq, Eq, Hash)]
pub enum Sigil {
    R,
    W,
    U,
}

/// What may be done with a value: it may be dropped, shared, or escape from an observation
/// (the paper's kinds D, S and E, section 3).
#[derive(Clone, Copy, Debug, PartialEq, Eq)]
pub struct Kinds {
    pub drop: bool,
    pub share: bool,
    pub escape: bool,
}

/// A type variable with its constraint.
#[derive(Drop)]
pub struct Bound {
    pub name: Name,
    pub kinds: Kinds,
}
