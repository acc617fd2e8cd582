// Types and parts beside a list of structs that they are of.
ghost use Rattle.std.specs.Prelude.{◌≡◌, List};
ghost use Rattle.cg_ctree.specs.declared.tree.CStruct.{CStruct};
ghost use Rattle.cg_cmachine_def.specs.Layouts.{size};
ghost use Rattle.cg_cmachine_layout.specs.Counts.{IsCounted, counted_layout};
ghost use Rattle.cg_cmachine_layout.specs.Tables.{slots_in};

use cg_base::{Name, Word};

/// A type of C, of a struct with the number of its slots.
#[derive(Clone, Copy)]
pub(crate) enum Counted<'a> {
    Word(Word),
    Pointer(&'a Name),
    Struct(&'a Name, u32),
}

/// A part of a value: how many slots stand before it, and its type.
#[derive(Clone, Copy)]
pub(crate) struct Offset<'a> {
    pub start: u32,
    pub kind: Counted<'a>,
}

impl<'a> Counted<'a> {
    /// How many slots a value of the type has.
    pub fn size(self) -> u32
        ensures { (ss : List CStruct) → IsCounted ss self.entry → result ≡ size (counted_layout ss self.entry) }
    {
        slots(self)
    }
}

/// The slots that stand beside a type.
pub(crate) fn slots(kind: Counted<'_>) -> u32
    ensures { result ≡ slots_in kind.entry }
{
    match kind {
        Counted::Word(_) | Counted::Pointer(_) => 1,
        Counted::Struct(_, slots) => slots,
    }
}
