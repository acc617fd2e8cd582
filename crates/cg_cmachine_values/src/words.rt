// Words and operations on them.
#![tactic(auto, using(crate::proofs::Numbers::number_steps))]

ghost use Rattle.std.specs.Prelude.{◌≡◌, ◌<◌, ◌+◌, ◌-◌, ◌%◌, ◌^◌, nat_lt, nat_le, nat_eq, not};
ghost use Rattle.cg_base.specs.Words.{bits, same_word};
ghost use Rattle.cg_cmachine_def.specs.Operations.{flag as flag_of};
ghost use Rattle.cg_ctree.specs.declared.tree.COp.TheVariants.{Shl, Shr};
ghost use Rattle.cg_cmachine_values.specs.Values.{Gives, reduced};

use cg_base::Word;
use cg_ctree::{COp, Why};

/// How many bits a word has.
fn width(word: Word) -> u64
    ensures { result ≡ bits word }
{
    match word {
        Word::U8 => 8,
        Word::U16 => 16,
        Word::U32 => 32,
        Word::U64 => 64,
    }
}

/// The greatest number of a word.
fn greatest(word: Word) -> u64
    ensures { result ≡ 2 ^ bits word - 1 }
{
    match word {
        Word::U8 => 0xff,
        Word::U16 => 0xffff,
        Word::U32 => 0xffff_ffff,
        Word::U64 => 0xffff_ffff_ffff_ffff,
    }
}

/// Whether a number is in range of a word.
pub fn fits(word: Word, number: u64) -> bool
    ensures { result ≡ nat_lt number (2 ^ bits word) }
{
    match word {
        Word::U8 => number < 0x100,
        Word::U16 => number < 0x1_0000,
        Word::U32 => number < 0x1_0000_0000,
        Word::U64 => true,
    }
}

/// A number modulo 2^n.
pub(crate) fn wrapped(word: Word, number: u64) -> u64
    ensures { result ≡ number % 2 ^ bits word }
{
    match word {
        Word::U8 => number % 0x100,
        Word::U16 => number % 0x1_0000,
        Word::U32 => number % 0x1_0000_0000,
        Word::U64 => number,
    }
}

/// Whether two words are the same.
pub fn same(a: Word, b: Word) -> bool
    ensures { result ≡ same_word a b }
{
    match (a, b) {
        (Word::U8, Word::U8) => true,
        (Word::U16, Word::U16) => true,
        (Word::U32, Word::U32) => true,
        (Word::U64, Word::U64) => true,
        _ => false,
    }
}

/// The complement of a number in a word.
pub(crate) fn complement(word: Word, number: u64) -> u64
    ensures { result ≡ (2 ^ bits word - 1) - number % 2 ^ bits word }
{
    greatest(word) - wrapped(word, number)
}

/// 1 where it holds, else 0.
fn flag(holds: bool) -> u64
    ensures { result ≡ flag_of holds }
{
    if holds { 1 } else { 0 }
}

/// A difference modulo 2^n.
fn difference(word: Word, a: u64, b: u64) -> u64
    requires left { a < 2 ^ bits word }
    requires right { b < 2 ^ bits word }
    ensures { result ≡ ((a + 2 ^ bits word) - b) % 2 ^ bits word }
{
    if a >= b {
        a - b
    } else {
        a + (greatest(word) - b) + 1
    }
}

/// A number shifted to the left, modulo 2^n.
fn shifted_left(word: Word, a: u64, b: u64) -> Result<u64, Why>
    ensures { Gives (λ n. n) (reduced Shl word a b) result }
{
    if b < width(word) {
        Ok(wrapped(word, a << b))
    } else {
        Err(Why::ShiftTooFar)
    }
}

/// A number shifted to the right.
fn shifted_right(word: Word, a: u64, b: u64) -> Result<u64, Why>
    ensures { Gives (λ n. n) (reduced Shr word a b) result }
{
    if b < width(word) {
        Ok(wrapped(word, a >> b))
    } else {
        Err(Why::ShiftTooFar)
    }
}

/// An operation on two numbers of a word, modulo 2^n.
pub(crate) fn operate(op: COp, word: Word, a: u64, b: u64) -> Result<u64, Why>
    requires left { a < 2 ^ bits word }
    requires right { b < 2 ^ bits word }
    ensures { Gives (λ n. n) (reduced op word a b) result }
{
    match op {
        COp::Add => Ok(wrapped(word, a.wrapping_add(b))),
        COp::Sub => Ok(difference(word, a, b)),
        COp::Mul => Ok(wrapped(word, a.wrapping_mul(b))),
        COp::Div if b == 0 => Err(Why::ByZero),
        COp::Div => Ok(wrapped(word, a / b)),
        COp::Rem if b == 0 => Err(Why::ByZero),
        COp::Rem => Ok(wrapped(word, a % b)),
        COp::And => Ok(wrapped(word, a & b)),
        COp::Or => Ok(wrapped(word, a | b)),
        COp::Xor => Ok(wrapped(word, a ^ b)),
        COp::Shl => shifted_left(word, a, b),
        COp::Shr => shifted_right(word, a, b),
        COp::Eq => Ok(wrapped(word, flag(a == b))),
        COp::Ne => Ok(wrapped(word, flag(a != b))),
        COp::Lt => Ok(wrapped(word, flag(a < b))),
        COp::Gt => Ok(wrapped(word, flag(b < a))),
        COp::Le => Ok(wrapped(word, flag(a <= b))),
        COp::Ge => Ok(wrapped(word, flag(b <= a))),
    }
}
