// Kinds, as they are written: some of the letters D, S and E.
ghost use Rattle.std.specs.Prelude.{◌≡◌, ◌==◌};
ghost use Rattle.std.specs.List.{list_any};
ghost use Rattle.cg_parser_def.specs.Grammar.{is_letter as is_kind, are_letters as are_kinds, kinds_of as kinds_in, no_kinds as none_of_them};

use cg_base::Kinds;

/// Whether a byte is the letter of a kind.
fn is_letter(byte: u8) -> bool
    ensures { result ≡ is_kind byte }
{
    byte == b'D' || byte == b'S' || byte == b'E'
}

/// Whether all bytes are such letters.
pub(crate) fn are_letters(text: &[u8]) -> bool
    ensures { result ≡ are_kinds text.now }
{
    text.iter().all(|byte| is_letter(*byte))
}

/// Whether a letter is among bytes.
fn has(text: &[u8], letter: u8) -> bool
    ensures { result ≡ list_any (λ c. c == letter) text.now }
{
    text.iter().any(|byte| *byte == letter)
}

/// The kinds that letters give.
pub(crate) fn kinds_of(text: &[u8]) -> Kinds
    ensures { result ≡ kinds_in text.now }
{
    Kinds {
        drop: has(text, b'D'),
        share: has(text, b'S'),
        escape: has(text, b'E'),
    }
}

/// The kinds of a variable without a constraint.
pub(crate) fn no_kinds() -> Kinds
    ensures { result ≡ none_of_them }
{
    Kinds {
        drop: false,
        share: false,
        escape: false,
    }
}
