// What is asked of operands.
#![tactic(auto, using(crate::proofs::Structs::struct_steps))]

ghost use Rattle.std.specs.Prelude.{◌<◌, ◌^◌, IfOk};
ghost use Rattle.cg_base.specs.Words.{bits};
ghost use Rattle.cg_base.specs.declared.kind.Word.TheVariants.{U32};
ghost use Rattle.cg_cmachine_def.specs.BuiltIns as built_ins;
ghost use Rattle.cg_cmachine_def.specs.BuiltIns.{allocator, array_of};
ghost use Rattle.cg_cmachine_def.specs.Layouts.{pointer};
ghost use Rattle.cg_cmachine_def.specs.Outcomes.{on};
ghost use Rattle.cg_cmachine_values.specs.Values.{Gives, value_of};

use crate::widths::array_name;
use cg_base::Word;
use cg_cmachine_values::{CValue, fits, same};
use cg_ctree::Why;
use cg_heap::Store;

/// The cell that an operand points to has to be there; of one that is no pointer nothing is asked here.
pub(crate) fn is_there<S: Store>(store: &S, value: &CValue<'_>) -> Result<(), Why>
    ensures { Gives (λ _. tt) (built_ins.is_there (S.stored store.now) (value_of value.now)) result }
{
    match value {
        CValue::Pointer(_, address) => match store.form(*address) {
            None => Err(Why::NoCell),
            Some(_) => Ok(()),
        },
        _ => Ok(()),
    }
}

/// A number of a word.
pub(crate) fn number_of(word: Word, value: &CValue<'_>) -> Result<u64, Why>
    ensures gives { Gives (λ n. n) (built_ins.number_of word (value_of value.now)) result }
    ensures small { IfOk result (λ n. n < 2 ^ bits word) }
{
    match value {
        CValue::Literal(number) if fits(word, *number) => Ok(*number),
        CValue::Word(other, number) if same(word, *other) && fits(word, *number) => Ok(*number),
        _ => Err(Why::KindsDiffer),
    }
}

/// A number of an index's word.
pub(crate) fn index_of(value: &CValue<'_>) -> Result<u32, Why>
    ensures { Gives (λ n. n) (built_ins.number_of U32 (value_of value.now)) result }
{
    let number = number_of(Word::U32, value)?;
    Ok(number as u32)
}

/// An address, of a pointer to the struct of a name.
fn pointer_of(name: &[u8], value: &CValue<'_>) -> Result<u64, Why>
    ensures { Gives (λ n. n) (built_ins.pointer_of (pointer name.now) (value_of value.now)) result }
{
    match value {
        CValue::Pointer(other, address) if name == *other => Ok(*address),
        _ => Err(Why::KindsDiffer),
    }
}

/// The address of an allocator.
pub(crate) fn allocator_of(value: &CValue<'_>) -> Result<u64, Why>
    ensures { Gives (λ n. n) (built_ins.pointer_of allocator (value_of value.now)) result }
{
    pointer_of(b"SysState", value)
}

/// The address of an array of a width.
pub(crate) fn array_in(word: Word, value: &CValue<'_>) -> Result<u64, Why>
    ensures { Gives (λ n. n) (built_ins.pointer_of (array_of word) (value_of value.now)) result }
{
    pointer_of(array_name(word), value)
}

/// The address of an allocator that is there.
pub(crate) fn allocator_there<S: Store>(store: &S, value: &CValue<'_>) -> Result<u64, Why>
    ensures { Gives (λ n. n) (on (built_ins.is_there (S.stored store.now) (value_of value.now)) (λ _. built_ins.pointer_of allocator (value_of value.now))) result }
{
    is_there(store, value)?;
    allocator_of(value)
}

/// The address of an array of a width that is there.
pub(crate) fn array_there<S: Store>(store: &S, word: Word, value: &CValue<'_>) -> Result<u64, Why>
    ensures { Gives (λ n. n) (on (built_ins.is_there (S.stored store.now) (value_of value.now)) (λ _. built_ins.pointer_of (array_of word) (value_of value.now))) result }
{
    is_there(store, value)?;
    array_in(word, value)
}
