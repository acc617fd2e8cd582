// Arrays by the widths of their elements.
ghost use Rattle.std.specs.Prelude.{◌≡◌};
ghost use Rattle.cg_cmachine_def.specs.BuiltIns.{array_of};
ghost use Rattle.cg_cmachine_def.specs.Layouts.{pointer};

use cg_base::Word;

/// The name of the struct that pointers to arrays of a width point to.
pub(crate) fn array_name(word: Word) -> &'static [u8]
    ensures { pointer result.now ≡ array_of word }
{
    match word {
        Word::U8 => b"W8",
        Word::U16 => b"W16",
        Word::U32 => b"W32",
        Word::U64 => b"W64",
    }
}
