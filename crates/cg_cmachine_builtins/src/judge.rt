// What a call does.
ghost use Rattle.std.specs.Prelude.{◌≡◌, false, [], ◌∷◌, map};
ghost use Rattle.cg_cmachine_def.specs.BuiltIns as built_ins;
ghost use Rattle.cg_cmachine_def.specs.BuiltIns.{length_at};
ghost use Rattle.cg_cmachine_def.specs.Operations.{word_value};
ghost use Rattle.cg_cmachine_def.specs.Outcomes.{ok, on};
ghost use Rattle.cg_cmachine_values.specs.Values.{Gives, value_of};
ghost use Rattle.cg_cmachine_builtins.specs.Acts.{act_of, acts, keeps};
ghost use Rattle.cg_cmachine_builtins.specs.Called.{built_in_of};

use crate::BuiltIn;
use crate::act::Act;
use crate::operands::{
    allocator_of, allocator_there, array_in, array_there, index_of, is_there, number_of,
};
use cg_base::Word;
use cg_cmachine_values::{CValue, address_in, fits};
use cg_ctree::Why;
use cg_heap::{Form, Scalar, Store};

/// A function that gives no value stands on the right of no assignment.
fn as_asked(wanted: bool) -> Result<(), Why>
    ensures { Gives (λ _. tt) (built_ins.as_asked wanted) result }
{
    if wanted {
        Err(Why::KindsDiffer)
    } else {
        Ok(())
    }
}

/// How long a cell is; 0 where there is none.
fn length<S: Store>(store: &S, address: u64) -> u32
    ensures { result ≡ length_at address (S.stored store.now) }
{
    match store.len(address) {
        None => 0,
        Some(length) => length,
    }
}

/// `cg_free`.
fn free<S: Store>(
    store: &S,
    wanted: bool,
    allocator: &CValue<'_>,
    cell: &CValue<'_>,
) -> Result<Act, Why>
    ensures { Gives (act_of (S.stored store.now)) (acts (S.stored store.now) built_ins.free wanted (value_of allocator.now ∷ value_of cell.now ∷ [])) result }
{
    is_there(store, allocator)?;
    is_there(store, cell)?;
    allocator_of(allocator)?;
    let address = address_in(cell)?;
    as_asked(wanted)?;
    Ok(Act::Back(address))
}

/// `cg_wN_free`.
fn free_array<S: Store>(
    store: &S,
    word: Word,
    wanted: bool,
    allocator: &CValue<'_>,
    cell: &CValue<'_>,
) -> Result<Act, Why>
    ensures { Gives (act_of (S.stored store.now)) (acts (S.stored store.now) (built_ins.free_array word) wanted (value_of allocator.now ∷ value_of cell.now ∷ [])) result }
{
    is_there(store, allocator)?;
    is_there(store, cell)?;
    allocator_of(allocator)?;
    let address = array_in(word, cell)?;
    as_asked(wanted)?;
    Ok(Act::Back(address))
}

/// `cg_wN_create`.
fn create<S: Store>(
    store: &S,
    word: Word,
    allocator: &CValue<'_>,
    count: &CValue<'_>,
) -> Result<Act, Why>
    ensures { Gives (act_of (S.stored store.now)) (acts (S.stored store.now) (built_ins.create word) false (value_of allocator.now ∷ value_of count.now ∷ [])) result }
{
    let address = allocator_there(store, allocator)?;
    let count = index_of(count)?;
    Ok(Act::Array(word, address, count))
}

/// `cg_wN_length`.
fn length_of<S: Store>(store: &S, word: Word, array: &CValue<'_>) -> Result<Act, Why>
    ensures { Gives (act_of (S.stored store.now)) (acts (S.stored store.now) (built_ins.length_of word) false (value_of array.now ∷ [])) result }
{
    let address = array_there(store, word, array)?;
    Ok(Act::Number(Word::U32, length(store, address) as u64))
}

/// The number of a word that a slot of a cell is.
fn number_at<S: Store>(store: &S, word: Word, address: u64, index: u32) -> Result<u64, Why>
    ensures { Gives (word_value word) (built_ins.element_at word address index (S.stored store.now)) result }
{
    if index >= length(store, address) {
        return Ok(0);
    }
    match store.get(address, index) {
        None => Err(Why::NoCell),
        Some(Scalar::Unset) => Err(Why::Unset),
        Some(Scalar::Word(number)) if fits(word, number) => Ok(number),
        Some(_) => Err(Why::KindsDiffer),
    }
}

/// `cg_wN_get`.
fn get<S: Store>(store: &S, word: Word, array: &CValue<'_>, index: &CValue<'_>) -> Result<Act, Why>
    ensures { Gives (act_of (S.stored store.now)) (acts (S.stored store.now) (built_ins.get word) false (value_of array.now ∷ value_of index.now ∷ [])) result }
{
    let address = array_there(store, word, array)?;
    let index = index_of(index)?;
    let number = number_at(store, word, address, index)?;
    Ok(Act::Number(word, number))
}

/// What a write of an element does; nothing is changed where there is none.
fn element<S: Store>(store: &S, address: u64, index: u32, number: u64) -> Result<Act, Why>
    ensures { Gives (act_of (S.stored store.now)) (on (built_ins.with_element_at address index number (S.stored store.now)) (λ after. ok (keeps after))) result }
{
    if index >= length(store, address) {
        return Ok(Act::Nothing);
    }
    match store.form(address) {
        Some(Form::Words) => Ok(Act::Element(address, index, number)),
        _ => Err(Why::NoCell),
    }
}

/// `cg_wN_put`.
fn put<S: Store>(
    store: &S,
    word: Word,
    wanted: bool,
    array: &CValue<'_>,
    index: &CValue<'_>,
    value: &CValue<'_>,
) -> Result<Act, Why>
    ensures { Gives (act_of (S.stored store.now)) (acts (S.stored store.now) (built_ins.put word) wanted (value_of array.now ∷ value_of index.now ∷ value_of value.now ∷ [])) result }
{
    let address = array_there(store, word, array)?;
    let index = index_of(index)?;
    let number = number_of(word, value)?;
    as_asked(wanted)?;
    element(store, address, index, number)
}

/// The operands of a call, judged: what the call does.
pub(crate) fn judge<S: Store>(
    store: &S,
    built_in: BuiltIn,
    wanted: bool,
    values: &[CValue<'_>],
) -> Result<Act, Why>
    ensures { Gives (act_of (S.stored store.now)) (acts (S.stored store.now) (built_in_of built_in) wanted (map value_of values.now)) result }
{
    match (built_in, values) {
        (BuiltIn::Free, [allocator, cell]) => free(store, wanted, allocator, cell),
        (BuiltIn::FreeArray(word), [allocator, cell]) => {
            free_array(store, word, wanted, allocator, cell)
        }
        (BuiltIn::Create(word), [allocator, count]) => create(store, word, allocator, count),
        (BuiltIn::LengthOf(word), [array]) => length_of(store, word, array),
        (BuiltIn::Get(word), [array, index]) => get(store, word, array, index),
        (BuiltIn::Put(word), [array, index, value]) => {
            put(store, word, wanted, array, index, value)
        }
        _ => Err(Why::KindsDiffer),
    }
}
