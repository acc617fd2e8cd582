// Values.
#![tactic(auto, using(crate::proofs::Giving::giving_steps))]

ghost use Rattle.std.specs.Prelude.{◌≡◌, ◌++◌, cond, length, true, IfOk, OnOk};
ghost use Rattle.cg_cmachine_layout.specs.Kinds.{layout_of, shape_layout};
ghost use Rattle.cg_cmachine_def.specs.Layouts.{size};
ghost use Rattle.cg_cmachine_def.specs.Operands as operands;
ghost use Rattle.cg_cmachine_def.specs.Operands.{literal, scalars_of, typed};
ghost use Rattle.cg_cmachine_def.specs.Outcomes.{ok, no};
ghost use Rattle.cg_ctree.specs.declared.why.Why.TheVariants.{KindsDiffer};
ghost use Rattle.cg_cmachine_values.specs.Values.{Gives, value_of};

use crate::copied::Copied;
use crate::words::{fits, same};
use cg_base::Word;
use cg_cmachine_layout::Kind;
use cg_ctree::Why;
use cg_heap::Scalar;
use std::alloc::AllocError;

/// A value: a number of every word that it is in range of, one of a word, an address of a pointer to a struct, or a struct.
#[derive(Drop)]
pub enum CValue<'a> {
    Literal(u64),
    Word(Word, u64),
    Pointer(&'a [u8], u64),
    Struct(Copied<'a>),
}

/// A word of any width.
pub fn word_in(value: &CValue<'_>) -> Result<u64, Why>
    ensures { Gives (λ n. n) (operands.word_in (value_of value.now)) result }
{
    match value {
        CValue::Literal(number) => Ok(*number),
        CValue::Word(word, number) if fits(*word, *number) => Ok(*number),
        _ => Err(Why::KindsDiffer),
    }
}

/// An address, of a pointer to any struct.
pub fn address_in(value: &CValue<'_>) -> Result<u64, Why>
    ensures { Gives (λ n. n) (operands.address_in (value_of value.now)) result }
{
    match value {
        CValue::Pointer(_, address) => Ok(*address),
        _ => Err(Why::KindsDiffer),
    }
}

/// A number where a type is needed.
fn give_literal<'a>(kind: Kind<'a>, number: u64) -> Result<CValue<'a>, Why>
    ensures gives { Gives (λ v. scalars_of (value_of v)) (operands.give (layout_of kind.entry) (literal number)) result }
    ensures typed { IfOk result (λ v. value_of v ≡ typed (layout_of kind.entry) (scalars_of (value_of v))) }
    ensures many { IfOk result (λ v. length (scalars_of (value_of v)) ≡ size (layout_of kind.entry)) }
{
    match kind {
        Kind::Word(word) if fits(word, number) => Ok(CValue::Word(word, number)),
        _ => Err(Why::KindsDiffer),
    }
}

/// A struct's value where a type is needed.
fn give_struct<'a>(kind: Kind<'a>, copied: Copied<'a>) -> Result<CValue<'a>, Why>
    ensures gives { Gives (λ v. scalars_of (value_of v)) (operands.give (layout_of kind.entry) (typed (shape_layout copied.entry.shape) copied.entry.slots.items)) result }
    ensures typed { IfOk result (λ v. value_of v ≡ typed (layout_of kind.entry) (scalars_of (value_of v))) }
    ensures many { IfOk result (λ v. length (scalars_of (value_of v)) ≡ size (layout_of kind.entry)) }
{
    let Copied { shape, slots } = copied;
    match kind {
        Kind::Struct(other) if other.is(shape) => Ok(CValue::Struct(Copied {
            shape: other,
            slots,
        })),
        _ => Err(Why::KindsDiffer),
    }
}

/// A value where a type is needed: the same scalars, as a value of that type.
pub fn give<'a>(kind: Kind<'a>, value: CValue<'a>) -> Result<CValue<'a>, Why>
    ensures gives { Gives (λ v. scalars_of (value_of v)) (operands.give (layout_of kind.entry) (value_of value.entry)) result }
    ensures typed { IfOk result (λ v. value_of v ≡ typed (layout_of kind.entry) (scalars_of (value_of v))) }
    ensures many { IfOk result (λ v. length (scalars_of (value_of v)) ≡ size (layout_of kind.entry)) }
{
    match value {
        CValue::Literal(number) => give_literal(kind, number),
        CValue::Word(word, number) => match kind {
            Kind::Word(other) if same(other, word) => Ok(CValue::Word(other, number)),
            _ => Err(Why::KindsDiffer),
        },
        CValue::Pointer(name, address) => match kind {
            Kind::Pointer(other) if other.bytes() == name => {
                Ok(CValue::Pointer(other.bytes(), address))
            }
            _ => Err(Why::KindsDiffer),
        },
        CValue::Struct(copied) => give_struct(kind, copied),
    }
}

/// Whether a value is of a type.
pub fn is_of(kind: Kind<'_>, value: &CValue<'_>) -> bool
    ensures gives { operands.give (layout_of kind.entry) (value_of value.now) ≡ cond result (ok (scalars_of (value_of value.now))) (no KindsDiffer) }
    ensures many { result ≡ true → length (scalars_of (value_of value.now)) ≡ size (layout_of kind.entry) }
{
    match value {
        CValue::Literal(number) => match kind {
            Kind::Word(word) => fits(word, *number),
            _ => false,
        },
        CValue::Word(word, _) => match kind {
            Kind::Word(other) => same(other, *word),
            _ => false,
        },
        CValue::Pointer(name, _) => match kind {
            Kind::Pointer(other) => other.bytes() == *name,
            _ => false,
        },
        CValue::Struct(copied) => match kind {
            Kind::Struct(other) => other.is(copied.shape),
            _ => false,
        },
    }
}

/// Adds the scalars of a value behind others.
pub fn push_scalars(slots: &mut Vec<Scalar>, value: &CValue<'_>) -> Result<(), AllocError>
    ensures { OnOk result (slots.new.items ≡ slots.old.items ++ scalars_of (value_of value.now)) }
{
    match value {
        CValue::Literal(number) | CValue::Word(_, number) => slots.push(Scalar::Word(*number))?,
        CValue::Pointer(_, address) => slots.push(Scalar::Address(*address))?,
        CValue::Struct(copied) => slots.extend_from_slice(copied.slots.as_slice())?,
    }
    Ok(())
}
