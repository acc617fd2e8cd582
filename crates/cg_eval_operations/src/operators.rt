// Operators on numbers, and what they give on values.
#![tactic(auto, unfolding(crate::specs::Operators::operated, crate::specs::Operators::operated_both), using(crate::proofs::WordSums::word_steps))]

ghost use Rattle.std.specs.Prelude.{◌≡◌, ◌+◌, ◌-◌, ◌%◌, ◌^◌, nat_lt, nat_eq, zero, if◌then◌else◌, ◌*◌, ◌/◌};
ghost use Rattle.cg_base.specs.Types.{type_of};
ghost use Rattle.cg_base.specs.Words.{bits as bits_of};
ghost use Rattle.cg_core.specs.declared.op.Op.TheVariants as ops;
ghost use Rattle.cg_eval_operations.specs.Operators as operators;
ghost use Rattle.cg_value.specs.Values.{value_of};

use cg_base::{Ty, Word};
use cg_core::Op;
use cg_value::Value;

// How many bits a word has.
fn bits(word: Word) -> u64
    ensures { result ≡ bits_of word }
{
    match word {
        Word::U8 => 8,
        Word::U16 => 16,
        Word::U32 => 32,
        Word::U64 => 64,
    }
}

// How many bits the words of a type have, a truth value's 1.
fn width(ty: &Ty) -> u64
    ensures { result ≡ operators.width (type_of ty.now) }
{
    match ty {
        Ty::Word(word) => bits(*word),
        _ => 1,
    }
}

// A number modulo 2^n, at a word of n bits.
fn wrapped_word(word: Word, number: u64) -> u64
    ensures { result ≡ number % 2 ^ bits_of word }
{
    match word {
        Word::U8 => number % 0x100,
        Word::U16 => number % 0x1_0000,
        Word::U32 => number % 0x1_0000_0000,
        Word::U64 => number,
    }
}

// A number modulo 2^n, at a type whose words have n bits.
fn wrapped(ty: &Ty, number: u64) -> u64
    ensures { result ≡ number % 2 ^ operators.width (type_of ty.now) }
{
    match ty {
        Ty::Word(word) => wrapped_word(*word, number),
        _ => number % 2,
    }
}

// The largest number of a word.
fn largest_word(word: Word) -> u64
    ensures { result + 1 ≡ 2 ^ bits_of word }
{
    match word {
        Word::U8 => 0xff,
        Word::U16 => 0xffff,
        Word::U32 => 0xffff_ffff,
        Word::U64 => 0xffff_ffff_ffff_ffff,
    }
}

// The largest number of a type.
fn largest(ty: &Ty) -> u64
    ensures { result + 1 ≡ 2 ^ operators.width (type_of ty.now) }
{
    match ty {
        Ty::Word(word) => largest_word(*word),
        _ => 1,
    }
}

// 1 for yes and 0 for no.
pub fn truth(answer: bool) -> u64
    ensures { result ≡ operators.truth answer }
{
    if answer { 1 } else { 0 }
}

// A sum, modulo 2^n.
fn sum(ty: &Ty, left: u64, right: u64) -> u64
    ensures { result ≡ (left + right) % 2 ^ operators.width (type_of ty.now) }
{
    wrapped(ty, left.wrapping_add(right))
}

// A difference, modulo 2^n.
fn difference(ty: &Ty, left: u64, right: u64) -> u64
    ensures { result ≡ (left + (2 ^ operators.width (type_of ty.now) - right)) % 2 ^ operators.width (type_of ty.now) }
{
    let largest = largest(ty);
    if right <= largest {
        wrapped(ty, left.wrapping_add(largest - right).wrapping_add(1))
    } else {
        wrapped(ty, left)
    }
}

// A product, modulo 2^n.
fn product(ty: &Ty, left: u64, right: u64) -> u64
    ensures { result ≡ (left * right) % 2 ^ operators.width (type_of ty.now) }
{
    wrapped(ty, left.wrapping_mul(right))
}

// A quotient; 0 where the divisor is 0.
fn quotient(left: u64, right: u64) -> u64
    ensures { result ≡ if nat_eq right zero then zero else left / right }
{
    if right == 0 { 0 } else { left / right }
}

// A remainder; 0 where the divisor is 0.
fn remainder(left: u64, right: u64) -> u64
    ensures { result ≡ if nat_eq right zero then zero else left % right }
{
    if right == 0 { 0 } else { left % right }
}

// A shift to the left, modulo 2^n; 0 where it is by n bits or more.
fn shifted_left(ty: &Ty, left: u64, right: u64) -> u64
    ensures { result ≡ if nat_lt right (operators.width (type_of ty.now)) then (left * 2 ^ right) % 2 ^ operators.width (type_of ty.now) else zero }
{
    if right < width(ty) && right < 64 {
        wrapped(ty, left << right)
    } else {
        0
    }
}

// A shift to the right; 0 where it is by n bits or more.
fn shifted_right(ty: &Ty, left: u64, right: u64) -> u64
    ensures { result ≡ if nat_lt right (operators.width (type_of ty.now)) then left / 2 ^ right else zero }
{
    if right < width(ty) && right < 64 {
        left >> right
    } else {
        0
    }
}

// An operator on one number.
fn on_one(op: Op, ty: &Ty, number: u64) -> u64
    ensures { result ≡ operators.on_one op (operators.width (type_of ty.now)) number }
{
    match op {
        Op::Complement => largest(ty).saturating_sub(number),
        Op::Not => 1u64.saturating_sub(number),
        _ => 0,
    }
}

// An operator on two numbers.
fn on_two(op: Op, ty: &Ty, left: u64, right: u64) -> u64
    ensures { result ≡ operators.on_two op (operators.width (type_of ty.now)) left right }
{
    match op {
        Op::Add => sum(ty, left, right),
        Op::Sub => difference(ty, left, right),
        Op::Mul => product(ty, left, right),
        Op::Div => quotient(left, right),
        Op::Rem => remainder(left, right),
        Op::And | Op::Both => left & right,
        Op::Or | Op::Either => left | right,
        Op::Xor => left ^ right,
        Op::Shl => shifted_left(ty, left, right),
        Op::Shr => shifted_right(ty, left, right),
        Op::Eq => truth(left == right),
        Op::Ne => truth(left != right),
        Op::Lt => truth(left < right),
        Op::Gt => truth(left > right),
        Op::Le => truth(left <= right),
        Op::Ge => truth(left >= right),
        Op::Complement | Op::Not => 0,
    }
}

/// What an operator on one gives, whose operand has this type.
pub fn operated(op: Op, ty: &Ty, value: &Value) -> Value
    ensures { value_of result ≡ operators.operated op (type_of ty.now) (value_of value.now) }
{
    match value {
        Value::Num(number) => Value::Num(on_one(op, ty, *number)),
        _ => Value::Gone,
    }
}

/// What an operator on two gives, whose first operand has this type.
pub fn operated_both(op: Op, ty: &Ty, left: &Value, right: &Value) -> Value
    ensures { value_of result ≡ operators.operated_both op (type_of ty.now) (value_of left.now) (value_of right.now) }
{
    match left {
        Value::Num(left) => match right {
            Value::Num(right) => Value::Num(on_two(op, ty, *left, *right)),
            _ => Value::Gone,
        },
        _ => Value::Gone,
    }
}

/// The value of a literal.
pub fn literal(number: Option<u64>) -> Value
    ensures { value_of result ≡ operators.literal number }
{
    match number {
        Some(number) => Value::Num(number),
        None => Value::Gone,
    }
}
