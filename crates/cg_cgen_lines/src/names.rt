// Names of C, and words that C computes in.
#![tactic(auto)]

ghost use Rattle.std.specs.Prelude.{◌≡◌, IfOk};
ghost use Rattle.cg_cgen_def.specs.Code.{inner as inner_of};
ghost use Rattle.cg_cgen_def.specs.Names.{name as name_of};
ghost use Rattle.cg_cmachine_def.specs.BuiltIns.{array_call, width_text};

use cg_base::{Memory, Name, Word};
use itoa::Buffer;
use std::alloc::Global;

/// A letter and a number in decimal digits: of `f` and 3 the name `f3` (docs/LANGUAGE.md, "The C of instances"). The one error is want of
/// memory, here and in what stands below.
pub fn numbered(alloc: Global, letter: u8, number: usize) -> Result<Name, Memory>
    ensures { IfOk result (λ x. x ≡ name_of letter number) }
{
    let mut buffer = Buffer::new();
    let mut bytes = Vec::new(alloc);
    bytes.push(letter)?;
    bytes.extend_from_slice(buffer.format(number).as_bytes())?;
    Name::new(alloc, bytes.as_slice())
}

// How wide a word is, in decimal.
fn width(word: Word) -> &'static [u8]
    ensures { result.now ≡ width_text word }
{
    match word {
        Word::U8 => b"8".as_slice(),
        Word::U16 => b"16".as_slice(),
        Word::U32 => b"32".as_slice(),
        Word::U64 => b"64".as_slice(),
    }
}

/// The name of a built-in on arrays of a word, by what it does: `cg_w8_get` (docs/LANGUAGE.md, "The C subset").
pub fn array_name(alloc: Global, word: Word, action: &[u8]) -> Result<Name, Memory>
    ensures { IfOk result (λ x. x ≡ array_call word action.now) }
{
    let mut bytes = Vec::new(alloc);
    bytes.extend_from_slice(b"cg_w")?;
    bytes.extend_from_slice(width(word))?;
    bytes.push(b'_')?;
    bytes.extend_from_slice(action)?;
    Name::new(alloc, bytes.as_slice())
}

/// The word that operations on a word are computed in (docs/LANGUAGE.md, "Operators in C").
pub fn inner(word: Word) -> Word
    ensures { result ≡ inner_of word }
{
    match word {
        Word::U8 => Word::U32,
        Word::U16 => Word::U32,
        Word::U32 => Word::U32,
        Word::U64 => Word::U64,
    }
}
