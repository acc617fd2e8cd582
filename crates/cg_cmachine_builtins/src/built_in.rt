// The functions that `cogent.h` declares.
use cg_base::Word;

/// A function that `cogent.h` declares: `cg_new` without `sizeof`, `cg_free`, or one on arrays of a width.
#[derive(Clone, Copy)]
pub enum BuiltIn {
    /// `cg_new` without `sizeof`, of which nothing can be asked.
    NewAlone,
    /// `cg_free`.
    Free,
    /// `cg_wN_create`.
    Create(Word),
    /// `cg_wN_free`.
    FreeArray(Word),
    /// `cg_wN_length`.
    LengthOf(Word),
    /// `cg_wN_get`.
    Get(Word),
    /// `cg_wN_put`.
    Put(Word),
}
