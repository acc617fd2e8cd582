// The greatest numbers of words.
ghost use Rattle.std.specs.Prelude.{◌≡◌, ◌+◌, ◌^◌};
ghost use Rattle.cg_base.specs.Words.{bits};

use cg_base::Word;

/// The greatest number of a word (docs/LANGUAGE.md, "Types").
pub fn most_of(word: Word) -> u64
    ensures { result + 1 ≡ 2 ^ bits word }
{
    match word {
        Word::U8 => 255,
        Word::U16 => 65535,
        Word::U32 => 4294967295,
        Word::U64 => u64::MAX,
    }
}
