// Operands and right sides.
#![tactic(auto, using(std::proofs::lemmas::Grind::common_steps))]

ghost use Rattle.std.specs.Prelude.{◌≡◌, ◌++◌, [], OnOk};
ghost use Rattle.cg_ctree.specs.declared.tree.CRhs.TheVariants.{Binary, Flip, IsNull, New};
ghost use Rattle.cg_ctext.specs.Signs.{sign_before};
ghost use Rattle.cg_ctext.specs.Printed.{members_text, path_text, some_text, opnd_text, cast_text, call_text, right_text};

use crate::put::{between, op_name, put, put_number, word_name};
use cg_base::{Memory, Name, Word};
use cg_ctree::{COp, COpnd, CPath, CRhs};

// The sign before the first member of a path.
fn first_sign(behind_arrow: bool) -> &'static [u8]
    ensures { result.now ≡ sign_before behind_arrow [] }
{
    if behind_arrow { b"->" } else { b"." }
}

// The members of a path.
#[tactic(auto, using(crate::proofs::Rows::row_steps, std::proofs::lemmas::Grind::common_steps))]
fn put_members(text: &mut Vec<u8>, behind_arrow: bool, members: &[Name]) -> Result<(), Memory>
    ensures { OnOk result (text.new.items ≡ text.old.items ++ members_text behind_arrow members.now) }
{
    let mut before = first_sign(behind_arrow);
    for member in members {
        put(text, before)?;
        put(text, member.bytes())?;
        before = b".";
    }
    Ok(())
}

/// A path.
pub(crate) fn put_path(text: &mut Vec<u8>, path: &CPath) -> Result<(), Memory>
    ensures { OnOk result (text.new.items ≡ text.old.items ++ path_text path.now) }
{
    put(text, path.base.bytes())?;
    put_members(text, path.arrow, path.members.as_slice())
}

/// An operand, behind another piece.
pub(crate) fn operand(text: &mut Vec<u8>, before: &[u8], operand: &COpnd) -> Result<(), Memory>
    ensures { OnOk result (text.new.items ≡ text.old.items ++ (before.now ++ opnd_text operand.now)) }
{
    match operand {
        COpnd::Number(number) => put_number(text, before, *number, b"ull"),
        COpnd::Path(path) => {
            put(text, before)?;
            put_path(text, path)
        }
    }
}

// Operands, with commas between.
#[tactic(auto, using(crate::proofs::Rows::row_steps, std::proofs::lemmas::Grind::common_steps))]
fn some_operands(text: &mut Vec<u8>, operands: &[COpnd]) -> Result<(), Memory>
    ensures { OnOk result (text.new.items ≡ text.old.items ++ some_text opnd_text operands.now) }
{
    let mut before: &[u8] = b"";
    for next in operands {
        operand(text, before, next)?;
        before = b", ";
    }
    Ok(())
}

// A cast.
fn cast(text: &mut Vec<u8>, word: Word, inner: &COpnd) -> Result<(), Memory>
    ensures { OnOk result (text.new.items ≡ text.old.items ++ cast_text word inner.now) }
{
    between(text, b"(", word_name(word), b")")?;
    operand(text, b"", inner)
}

// An operation of two operands, which are cast to the second word.
fn binary(
    text: &mut Vec<u8>,
    outer: Word,
    inner: Word,
    op: COp,
    left: &COpnd,
    right: &COpnd,
) -> Result<(), Memory>
    ensures { OnOk result (text.new.items ≡ text.old.items ++ right_text (Binary outer inner op left.now right.now)) }
{
    between(text, b"(", word_name(outer), b")(")?;
    cast(text, inner, left)?;
    between(text, b" ", op_name(op), b" ")?;
    cast(text, inner, right)?;
    put(text, b")")
}

// A flip of an operand, which is cast to the second word.
fn flip(text: &mut Vec<u8>, outer: Word, inner: Word, flipped: &COpnd) -> Result<(), Memory>
    ensures { OnOk result (text.new.items ≡ text.old.items ++ right_text (Flip outer inner flipped.now)) }
{
    between(text, b"(", word_name(outer), b")(~")?;
    cast(text, inner, flipped)?;
    put(text, b")")
}

// A test whether an operand is null.
fn null_test(text: &mut Vec<u8>, tested: &COpnd) -> Result<(), Memory>
    ensures { OnOk result (text.new.items ≡ text.old.items ++ right_text (IsNull tested.now)) }
{
    operand(text, b"(uint8_t)(", tested)?;
    put(text, b" == 0)")
}

// A call for a new struct of a name.
fn new_struct(text: &mut Vec<u8>, heap: &COpnd, name: &Name) -> Result<(), Memory>
    ensures { OnOk result (text.new.items ≡ text.old.items ++ right_text (New heap.now name.now)) }
{
    operand(text, b"cg_new(", heap)?;
    between(text, b", sizeof(struct ", name.bytes(), b"))")
}

/// A call.
pub(crate) fn call(text: &mut Vec<u8>, function: &Name, operands: &[COpnd]) -> Result<(), Memory>
    ensures { OnOk result (text.new.items ≡ text.old.items ++ call_text function.now operands.now) }
{
    between(text, b"", function.bytes(), b"(")?;
    some_operands(text, operands)?;
    put(text, b")")
}

/// A right side.
pub(crate) fn right_side(text: &mut Vec<u8>, right: &CRhs) -> Result<(), Memory>
    ensures { OnOk result (text.new.items ≡ text.old.items ++ right_text right.now) }
{
    match right {
        CRhs::Opnd(inner) => operand(text, b"", inner),
        CRhs::Conv(word, inner) => cast(text, *word, inner),
        CRhs::Binary(outer, inner, op, left, right) => binary(
            text, *outer, *inner, *op, left, right,
        ),
        CRhs::Flip(outer, inner, flipped) => flip(text, *outer, *inner, flipped),
        CRhs::IsNull(tested) => null_test(text, tested),
        CRhs::Call(function, operands) => call(text, function, operands.as_slice()),
        CRhs::New(heap, name) => new_struct(text, heap, name),
    }
}
