// Pieces of text, each put behind what is printed already.
ghost use Rattle.std.specs.Prelude.{◌≡◌, ◌++◌, OnOk, decimal};
ghost use Rattle.cg_ctree.specs.Spells.{spelled, op_sign};
ghost use Rattle.cg_ctext.specs.Printed.{deeper, line_at};

use cg_base::{Memory, Word};
use cg_ctree::COp;
use itoa::Buffer;

/// These bytes.
pub(crate) fn put(text: &mut Vec<u8>, piece: &[u8]) -> Result<(), Memory>
    ensures { OnOk result (text.new.items ≡ text.old.items ++ piece.now) }
{
    text.extend_from_slice(piece)?;
    Ok(())
}

/// A piece between two others.
pub(crate) fn between(
    text: &mut Vec<u8>,
    before: &[u8],
    piece: &[u8],
    after: &[u8],
) -> Result<(), Memory>
    ensures { OnOk result (text.new.items ≡ text.old.items ++ (before.now ++ piece.now ++ after.now)) }
{
    put(text, before)?;
    put(text, piece)?;
    put(text, after)
}

/// The level of what stands in braces.
#[tactic(auto, using(crate::proofs::Lines::line_steps, std::proofs::lemmas::Grind::common_steps))]
pub(crate) fn inner_level(level: u8) -> u8
    ensures { result ≡ deeper level }
{
    if level < 16 { level + 1 } else { 16 }
}

/// A new line, with the spaces of its level.
#[tactic(auto, using(crate::proofs::Lines::line_steps, std::proofs::lemmas::Grind::common_steps))]
pub(crate) fn put_line(text: &mut Vec<u8>, level: u8) -> Result<(), Memory>
    ensures { OnOk result (text.new.items ≡ text.old.items ++ line_at level) }
{
    put(text, b"\n")?;
    for _ in 0..level {
        put(text, b"    ")?;
    }
    Ok(())
}

/// A piece on a line of its own.
pub(crate) fn on_line(text: &mut Vec<u8>, level: u8, piece: &[u8]) -> Result<(), Memory>
    ensures { OnOk result (text.new.items ≡ text.old.items ++ (line_at level ++ piece.now)) }
{
    put_line(text, level)?;
    put(text, piece)
}

/// A number in decimal digits, between two pieces.
pub(crate) fn put_number(
    text: &mut Vec<u8>,
    before: &[u8],
    number: u64,
    after: &[u8],
) -> Result<(), Memory>
    ensures { OnOk result (text.new.items ≡ text.old.items ++ (before.now ++ decimal number ++ after.now)) }
{
    let mut buffer = Buffer::new();
    between(text, before, buffer.format(number).as_bytes(), after)
}

/// How a word type is spelled.
pub(crate) fn word_name(word: Word) -> &'static [u8]
    ensures { result.now ≡ spelled word }
{
    match word {
        Word::U8 => b"uint8_t",
        Word::U16 => b"uint16_t",
        Word::U32 => b"uint32_t",
        Word::U64 => b"uint64_t",
    }
}

/// The sign of an operation.
pub(crate) fn op_name(op: COp) -> &'static [u8]
    ensures { result.now ≡ op_sign op }
{
    match op {
        COp::Add => b"+",
        COp::Sub => b"-",
        COp::Mul => b"*",
        COp::Div => b"/",
        COp::Rem => b"%",
        COp::And => b"&",
        COp::Or => b"|",
        COp::Xor => b"^",
        COp::Shl => b"<<",
        COp::Shr => b">>",
        COp::Eq => b"==",
        COp::Ne => b"!=",
        COp::Lt => b"<",
        COp::Gt => b">",
        COp::Le => b"<=",
        COp::Ge => b">=",
    }
}
