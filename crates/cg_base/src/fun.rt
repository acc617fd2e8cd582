// Functions, as terms mention them.

/// A function of the library.
#[derive(Clone, Copy, Debug, PartialEq, Eq, Hash)]
pub enum Lib {
    New,
    Free,
    Create,
    FreeArray,
    Length,
    Get,
    Put,
    Map,
    Fold,
    Seq32,
    Seq64,
    Seq32Break,
}

/// A function: one of the source, by its position in the order of signatures, or one of the library.
#[derive(Clone, Copy, Debug, PartialEq, Eq, Hash)]
pub enum Fun {
    User(u32),
    Lib(Lib),
}
