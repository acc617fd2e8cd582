// What operations give.
ghost use Rattle.std.specs.Prelude.{◌≡◌};
ghost use Rattle.cg_cmachine_def.specs.Operations.{computed, converted, flipped};
ghost use Rattle.cg_cmachine_values.specs.Values.{Gives, value_of};

use crate::CValue;
use crate::words::{complement, operate, wrapped};
use cg_base::Word;
use cg_ctree::{COp, Why};

/// A number as one of a word.
pub fn convert<'a>(word: Word, number: u64) -> CValue<'a>
    ensures { value_of result ≡ converted word number }
{
    CValue::Word(word, wrapped(word, number))
}

/// An operation on two numbers, cast to the inner word; its result as one of the outer word.
pub fn compute<'a>(
    outer: Word,
    inner: Word,
    op: COp,
    left: u64,
    right: u64,
) -> Result<CValue<'a>, Why>
    ensures { Gives value_of (computed outer inner op left right) result }
{
    match operate(op, inner, wrapped(inner, left), wrapped(inner, right)) {
        Err(why) => Err(why),
        Ok(number) => Ok(convert(outer, number)),
    }
}

/// All bits of a number turned round, which is cast to the inner word; as one of the outer word.
pub fn flip<'a>(outer: Word, inner: Word, number: u64) -> CValue<'a>
    ensures { value_of result ≡ flipped outer inner number }
{
    convert(outer, complement(inner, number))
}
