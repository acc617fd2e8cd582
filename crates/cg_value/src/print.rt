// The text of a value.
#![tactic(auto, unfolding(crate::specs::Printed::printed, crate::specs::Printed::payload, crate::specs::Printed::fields_text, crate::specs::Printed::is_tuple, crate::specs::Printed::are_components, crate::specs::Printed::shows_payload, crate::specs::Values::to_vals, cg_base::specs::Types::to_parts), using(crate::proofs::Printing::printing, std::proofs::lemmas::Grind::common_steps))]

ghost use Rattle.std.specs.Prelude.{◌≡◌, ◌++◌, [], zero, IfOk, OnOk, codes, decimal, map};
ghost use Rattle.std.specs.Str.{bytes_eq};
ghost use Rattle.cg_base.specs.Types.{part_of, to_parts, type_of};
ghost use Rattle.cg_value.specs.Printed as text;
ghost use Rattle.cg_value.specs.Printed.{printed};
ghost use Rattle.cg_value.specs.Values.{answers, chosen, elements, nothing, number as number_of, parts, to_vals, value_of};

use crate::Value;
use cg_base::{Items, Memory, Name, Part, Sigil, Ty};
use itoa::Buffer;
use std::alloc::Global;

/// The text of a value at its type (docs/LANGUAGE.md, "Values"). It means something where the value fits the type, in which there is no
/// function and no user's abstract type; elsewhere it is what the definition says. The one error is want of memory.
pub fn print_value(alloc: Global, value: &Value, ty: &Ty) -> Result<Vec<u8>, Memory>
    ensures { IfOk result (λ text. text.items ≡ printed (value_of value.now) (type_of ty.now)) }
{
    let mut out = Vec::new(alloc);
    put_value(&mut out, value, ty)?;
    Ok(out)
}

// These bytes.
fn put(out: &mut Vec<u8>, piece: &[u8]) -> Result<(), Memory>
    ensures { OnOk result (out.new.items ≡ out.old.items ++ piece.now) }
{
    out.extend_from_slice(piece)?;
    Ok(())
}

// A number in decimal digits.
fn put_number(out: &mut Vec<u8>, number: u64) -> Result<(), Memory>
    ensures { OnOk result (out.new.items ≡ out.old.items ++ decimal number) }
{
    let mut buffer = Buffer::new();
    put(out, buffer.format(number).as_bytes())
}

// A truth value.
fn put_truth(out: &mut Vec<u8>, number: u64) -> Result<(), Memory>
    ensures { OnOk result (out.new.items ≡ out.old.items ++ text.truth number) }
{
    if number == 0 {
        put(out, b"False")
    } else {
        put(out, b"True")
    }
}

// The bit of an answer.
#[tactic(auto, unfolding(crate::specs::Printed::bit))]
fn put_bit(out: &mut Vec<u8>, answer: bool) -> Result<(), Memory>
    ensures { OnOk result (out.new.items ≡ out.old.items ++ text.bit answer) }
{
    if answer {
        put(out, b"1")
    } else {
        put(out, b"0")
    }
}

// Numbers, with commas between.
fn put_numbers(out: &mut Vec<u8>, numbers: &[u64]) -> Result<(), Memory>
    ensures { OnOk result (out.new.items ≡ out.old.items ++ text.listed decimal [] numbers.now) }
{
    let mut lead: &[u8] = b"";
    for number in numbers {
        put(out, lead)?;
        put_number(out, *number)?;
        lead = b", ";
    }
    Ok(())
}

// Answers, with commas between.
fn put_answers(out: &mut Vec<u8>, answers: &[bool]) -> Result<(), Memory>
    ensures { OnOk result (out.new.items ≡ out.old.items ++ text.listed text.bit [] answers.now) }
{
    let mut lead: &[u8] = b"";
    for answer in answers {
        put(out, lead)?;
        put_bit(out, *answer)?;
        lead = b", ";
    }
    Ok(())
}

// Whether a name is that of the component with this number, counted from 1.
fn is_component(name: &Name, number: usize) -> bool
    ensures { result ≡ bytes_eq name.now (codes "p" ++ decimal number) }
{
    let mut buffer = Buffer::new();
    let digits = buffer.format(number).as_bytes();
    match name.bytes() {
        [first, rest @ ..] => *first == b'p' && rest == digits,
        [] => false,
    }
}

// Whether the names of parts are those of components.
fn are_components(parts: &[Part]) -> bool
    ensures { result ≡ text.are_components zero (to_parts (map part_of parts.now)) }
{
    for i in 0..parts.len() {
        if !is_component(&parts[i].name, i + 1) {
            return false;
        }
    }
    true
}

/// Whether a record of these fields and this sigil is a tuple (docs/LANGUAGE.md, "Values").
pub fn is_tuple(parts: &[Part], sigil: Sigil) -> bool
    ensures { result ≡ text.is_tuple (to_parts (map part_of parts.now)) sigil }
{
    match sigil {
        Sigil::U => parts.len() >= 2 && are_components(parts),
        Sigil::R | Sigil::W => false,
    }
}

fn is_unit(ty: &Ty) -> bool
    ensures { result ≡ text.is_unit (type_of ty.now) }
{
    match ty {
        Ty::Unit => true,
        _ => false,
    }
}

// Whether the alternative of this name has a payload that is printed.
fn shows_payload(name: &Name, parts: &[Part]) -> bool
    ensures { result ≡ text.shows_payload name.now (to_parts (map part_of parts.now)) }
{
    for part in parts {
        if name.same(&part.name) {
            return !is_unit(&part.ty);
        }
    }
    false
}

// Whether a payload stands in parentheses.
fn is_wrapped(value: &Value, ty: &Ty) -> bool
    ensures { result ≡ text.is_wrapped (value_of value.now) (type_of ty.now) }
{
    match value {
        Value::Variant(name, _) => match ty {
            Ty::Variant(parts) => shows_payload(name, parts.as_slice()),
            _ => false,
        },
        _ => false,
    }
}

// What stands before the fields of a record.
fn put_opening(out: &mut Vec<u8>, tuple: bool, sigil: Sigil) -> Result<(), Memory>
    ensures { OnOk result (out.new.items ≡ out.old.items ++ text.opening tuple sigil) }
{
    if tuple {
        return put(out, b"(");
    }
    match sigil {
        Sigil::U => put(out, b"#{"),
        Sigil::R | Sigil::W => put(out, b"{"),
    }
}

// What stands behind them.
fn put_closing(out: &mut Vec<u8>, tuple: bool) -> Result<(), Memory>
    ensures { OnOk result (out.new.items ≡ out.old.items ++ text.closing tuple) }
{
    if tuple {
        put(out, b")")
    } else {
        put(out, b"}")
    }
}

// The name of a field, which a component's isn't printed.
fn put_label(out: &mut Vec<u8>, tuple: bool, name: &Name) -> Result<(), Memory>
    ensures { OnOk result (out.new.items ≡ out.old.items ++ text.label tuple name.now) }
{
    if tuple {
        return Ok(());
    }
    put(out, name.bytes())?;
    put(out, b" = ")
}

// A number, as a word or as a truth value.
fn put_number_at(out: &mut Vec<u8>, number: u64, ty: &Ty) -> Result<(), Memory>
    ensures { OnOk result (out.new.items ≡ out.old.items ++ printed (number_of number) (type_of ty.now)) }
{
    match ty {
        Ty::Word(_) => put_number(out, number),
        Ty::Bool => put_truth(out, number),
        _ => Ok(()),
    }
}

fn put_unit(out: &mut Vec<u8>, ty: &Ty) -> Result<(), Memory>
    ensures { OnOk result (out.new.items ≡ out.old.items ++ printed nothing (type_of ty.now)) }
{
    if is_unit(ty) { put(out, b"()") } else { Ok(()) }
}

fn put_array(out: &mut Vec<u8>, numbers: &Items<u64>, ty: &Ty) -> Result<(), Memory>
    ensures { OnOk result (out.new.items ≡ out.old.items ++ printed (elements numbers.now) (type_of ty.now)) }
{
    let Ty::Abs(_, _, _) = ty else {
        return Ok(());
    };
    put(out, b"[")?;
    put_numbers(out, numbers.as_slice())?;
    put(out, b"]")
}

fn put_state(out: &mut Vec<u8>, given: &Items<bool>, ty: &Ty) -> Result<(), Memory>
    ensures { OnOk result (out.new.items ≡ out.old.items ++ printed (answers given.now) (type_of ty.now)) }
{
    let Ty::Abs(_, _, _) = ty else {
        return Ok(());
    };
    put(out, b"<")?;
    put_answers(out, given.as_slice())?;
    put(out, b">")
}

// A value.
#[cycle(print)]
fn put_value(out: &mut Vec<u8>, value: &Value, ty: &Ty) -> Result<(), Memory>
    ensures { OnOk result (out.new.items ≡ out.old.items ++ printed (value_of value.now) (type_of ty.now)) }
{
    match value {
        Value::Num(number) => put_number_at(out, *number, ty),
        Value::Unit => put_unit(out, ty),
        Value::Variant(name, value) => put_variant(out, name, value, ty),
        Value::Fields(values) => put_record(out, values.as_slice(), ty),
        Value::Array(numbers) => put_array(out, numbers, ty),
        Value::Answers(given) => put_state(out, given, ty),
        Value::Fun(_, _) | Value::Gone => Ok(()),
    }
}

// An alternative with its payload.
#[cycle(print)]
fn put_variant(out: &mut Vec<u8>, name: &Name, value: &Value, ty: &Ty) -> Result<(), Memory>
    ensures { OnOk result (out.new.items ≡ out.old.items ++ printed (chosen name.now (value_of value.now)) (type_of ty.now)) }
{
    let Ty::Variant(parts) = ty else {
        return Ok(());
    };
    put(out, name.bytes())?;
    put_payload(out, name, value, parts.as_slice())
}

// The payload of the alternative of this name.
#[cycle(print)]
fn put_payload(out: &mut Vec<u8>, name: &Name, value: &Value, parts: &[Part]) -> Result<(), Memory>
    ensures { OnOk result (out.new.items ≡ out.old.items ++ text.payload name.now (value_of value.now) (to_parts (map part_of parts.now))) }
{
    for part in parts {
        if name.same(&part.name) {
            return put_held(out, value, &part.ty);
        }
    }
    Ok(())
}

// A payload, unless it is unit.
#[cycle(print)]
fn put_held(out: &mut Vec<u8>, value: &Value, ty: &Ty) -> Result<(), Memory>
    ensures { OnOk result (out.new.items ≡ out.old.items ++ text.payload_text (value_of value.now) (type_of ty.now) (printed (value_of value.now) (type_of ty.now))) }
{
    if is_unit(ty) {
        return Ok(());
    }
    put(out, b" ")?;
    if !is_wrapped(value, ty) {
        return put_value(out, value, ty);
    }
    put(out, b"(")?;
    put_value(out, value, ty)?;
    put(out, b")")
}

// A record or a tuple.
#[cycle(print)]
fn put_record(out: &mut Vec<u8>, values: &[Value], ty: &Ty) -> Result<(), Memory>
    ensures { OnOk result (out.new.items ≡ out.old.items ++ printed (parts (to_vals (map value_of values.now))) (type_of ty.now)) }
{
    let Ty::Fields(parts, sigil) = ty else {
        return Ok(());
    };
    let tuple = is_tuple(parts.as_slice(), *sigil);
    put_opening(out, tuple, *sigil)?;
    put_fields(out, tuple, values, parts.as_slice())?;
    put_closing(out, tuple)
}

// Fields, with commas between.
#[cycle(print)]
fn put_fields(
    out: &mut Vec<u8>,
    tuple: bool,
    values: &[Value],
    parts: &[Part],
) -> Result<(), Memory>
    ensures { OnOk result (out.new.items ≡ out.old.items ++ text.fields_text tuple [] (to_vals (map value_of values.now)) (to_parts (map part_of parts.now))) }
{
    let mut lead: &[u8] = b"";
    for i in 0..values.len().min(parts.len()) {
        put(out, lead)?;
        put_field(out, tuple, &values[i], &parts[i])?;
        lead = b", ";
    }
    Ok(())
}

// A field.
#[cycle(print)]
fn put_field(out: &mut Vec<u8>, tuple: bool, value: &Value, part: &Part) -> Result<(), Memory>
    ensures { OnOk result (out.new.items ≡ out.old.items ++ text.field_text tuple part.now.name part.now.taken (printed (value_of value.now) (type_of part.now.ty))) }
{
    put_label(out, tuple, &part.name)?;
    if part.taken {
        put(out, b"_")
    } else {
        put_value(out, value, &part.ty)
    }
}
