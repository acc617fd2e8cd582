// Calls, and what waits for a value.
#![tactic(auto, using(crate::proofs::Steps::machine_steps))]

ghost use Rattle.std.specs.Prelude.{◌≡◌, Some, [], ◌∷◌, ◌++◌, ◌+◌, ◌-◌, ◌*◌, ◌≤◌, ◌<◌, map, IfOk, length};
ghost use Rattle.cg_base.specs.Types.{type_of};
ghost use Rattle.cg_base.specs.declared.fun.Fun.TheVariants.{Lib as OfLib};
ghost use Rattle.cg_core.specs.Kernels.{the_core};
ghost use Rattle.cg_lib_value.specs.Library.{library_cost, library_value};
ghost use Rattle.cg_value.specs.Foreign.{Foreign};
ghost use Rattle.cg_value.specs.Forms.{field};
ghost use Rattle.cg_value.specs.Values.{value_of};
ghost use Rattle.cg_eval_def.specs.Evaluation as evaluation;
ghost use Rattle.cg_eval_def.specs.Evaluation.{Table, bind, evaluate, gives, pay_for};
ghost use Rattle.cg_eval_def.specs.Foreigns.{table_of};
ghost use Rattle.cg_eval_machine.specs.Machine.{on, rest, context_of, turn, turns_of, Went, weight, said};
ghost use Rattle.cg_eval_operations.specs.Iterators.{upcoming};
ghost use Rattle.cg_eval_machine.specs.declared.frame.Frame.TheVariants as frames;

use crate::frame::Frame;
use crate::halt::Halt;
use crate::machine::{Focus, Machine, descend, fields, with_one, with_two};
use cg_base::{Fun, Items, Lib, Memory, Name, Ty, copy_types};
use cg_core::{FieldTerm, Term, Typed};
use cg_eval_operations::{
    Turns, asked, carried, changed, ended, first_index, first_turn, is_iterator, next_turn,
    started, stops,
};
use cg_lib_value::{lib_cost, lib_value};
use cg_typing::Checked;
use cg_value::Value;
use std::alloc::Global;

// The variables of a call: its argument alone.
fn only(alloc: Global, arg: Value) -> Result<Vec<Value>, Memory>
    ensures { IfOk result (λ values. values.items ≡ arg ∷ []) }
{
    let mut values = Vec::new(alloc);
    values.push(arg)?;
    Ok(values)
}

// Evaluates the body of a function with these for its variables; the caller's wait in a frame.
fn begin_call<'a>(
    m: &mut Machine<'a>,
    body: &'a Term<Typed>,
    values: Vec<Value>,
    types: Items<Ty>,
) -> Result<Focus<'a>, Halt>
    ensures gives { (table : Table) → Went table m.new
        (bind (evaluate table (the_core body.now) (record { types = map type_of types; values = map value_of values.items }) m.old.left)
        (rest table m.old.frames.items (context_of m.old))) result }
    ensures falls { IfOk result (λ f. weight m.new f ≤ 3 * m.old.left + 2 * length m.old.frames.items + 2) }
{
    let values = std::mem::replace(&mut m.values, values);
    let types = std::mem::replace(&mut m.types, types);
    m.frames.push(Frame::Back(values, types))?;
    Ok(Focus::Want(body))
}

// Calls a function of the source: one without a body is asked for its value.
fn enter<'a>(
    alloc: Global,
    checked: &'a Checked,
    m: &mut Machine<'a>,
    fun: u32,
    types: &Items<Ty>,
    arg: Value,
) -> Result<Focus<'a>, Halt>
    ensures gives { (x : Foreign) → let table = table_of x checked.now in
        Went table m.new (bind (evaluation.enter table (evaluate table) fun (value_of arg) m.old.left (table.body fun (map type_of types.now)))
        (rest table m.old.frames.items (context_of m.old))) result }
    ensures falls { IfOk result (λ f. weight m.new f ≤ 3 * m.old.left + 2 * length m.old.frames.items + 2) }
{
    match checked.core(fun) {
        Some(body) => {
            let types = copy_types(alloc, types)?;
            let values = only(alloc, arg)?;
            begin_call(m, body, values, types)
        }
        None => Ok(Focus::Ask(fun, arg)),
    }
}

// Calls what an iterator calls, which is a function of the source.
fn call<'a>(
    alloc: Global,
    checked: &'a Checked,
    m: &mut Machine<'a>,
    fun: &Value,
    arg: Value,
) -> Result<Focus<'a>, Halt>
    ensures gives { (x : Foreign) → let table = table_of x checked.now in
        Went table m.new (bind (evaluation.call table (evaluate table) (value_of fun.now) (value_of arg) m.old.left)
        (rest table m.old.frames.items (context_of m.old))) result }
    ensures falls { IfOk result (λ f. weight m.new f ≤ 3 * m.old.left + 2 * length m.old.frames.items + 2) }
{
    match fun {
        Value::Fun(Fun::User(at), types) => enter(alloc, checked, m, *at, types, arg),
        _ => Err(Halt::Stuck),
    }
}

// The turn at an index, and then those after it.
fn take_turn<'a>(
    alloc: Global,
    checked: &'a Checked,
    m: &mut Machine<'a>,
    at: u64,
    turns: Turns,
    array: Value,
    handed_on: Value,
) -> Result<Focus<'a>, Halt>
    ensures gives { (x : Foreign) → let table = table_of x checked.now in
        Went table m.new (bind (turns_of table turns (upcoming turns.to turns.step (Some at)) (value_of array) (value_of handed_on) m.old.left)
        (rest table m.old.frames.items (context_of m.old))) result }
    ensures falls { IfOk result (λ f. weight m.new f ≤ 3 * m.old.left + 2 * length m.old.frames.items + 2) }
{
    if m.left == 0 {
        return Err(Halt::StepLimit);
    }
    m.left -= 1;
    let arg = asked(alloc, &turns, at, &array, handed_on)?;
    let function = turns.function.copy(alloc)?;
    m.frames.push(Frame::Turn(at, turns, array))?;
    call(alloc, checked, m, &function, arg)
}

// The turns from the next index on, if there is one.
fn take_turns<'a>(
    alloc: Global,
    checked: &'a Checked,
    m: &mut Machine<'a>,
    next: Option<u64>,
    turns: Turns,
    array: Value,
    handed_on: Value,
) -> Result<Focus<'a>, Halt>
    ensures gives { (x : Foreign) → let table = table_of x checked.now in
        Went table m.new (bind (turns_of table turns (upcoming turns.to turns.step next) (value_of array) (value_of handed_on) m.old.left)
        (rest table m.old.frames.items (context_of m.old))) result }
    ensures falls { IfOk result (λ f. weight m.new f ≤ 3 * m.old.left + 2 * length m.old.frames.items + 2) }
{
    match next {
        None => Ok(Focus::Have(ended(alloc, turns.lib, array, handed_on)?)),
        Some(at) => take_turn(alloc, checked, m, at, turns, array, handed_on),
    }
}

/// A turn at an index is done.
pub(crate) fn turned<'a>(
    alloc: Global,
    checked: &'a Checked,
    m: &mut Machine<'a>,
    at: u64,
    turns: Turns,
    array: Value,
    value: Value,
) -> Result<Focus<'a>, Halt>
    ensures gives { (x : Foreign) → let table = table_of x checked.now in
        Went table m.new (on table (frames.Turn at turns array) (rest table m.old.frames.items) (context_of m.old) (value_of value) m.old.left) result }
    ensures falls { IfOk result (λ f. weight m.new f ≤ 3 * m.old.left + 2 * length m.old.frames.items + 2) }
{
    if stops(turns.lib, &value) {
        return Ok(Focus::Have(value));
    }
    let next = next_turn(at, turns.to, turns.step);
    let array = changed(turns.lib, at, array, &value);
    let handed_on = carried(turns.lib, value);
    take_turns(alloc, checked, m, next, turns, array, handed_on)
}

// Calls an iterator.
fn iterate<'a>(
    alloc: Global,
    checked: &'a Checked,
    m: &mut Machine<'a>,
    lib: Lib,
    arg: Value,
) -> Result<Focus<'a>, Halt>
    ensures gives { (x : Foreign) → let table = table_of x checked.now in
        Went table m.new (bind (evaluation.iterated table (evaluate table) lib (value_of arg) m.old.left)
        (rest table m.old.frames.items (context_of m.old))) result }
    ensures falls { IfOk result (λ f. weight m.new f ≤ 3 * m.old.left + 2 * length m.old.frames.items + 2) }
{
    let from = first_index(lib, &arg);
    let (turns, array, handed_on) = started(lib, arg);
    let next = first_turn(from, turns.to, turns.step);
    take_turns(alloc, checked, m, next, turns, array, handed_on)
}

// Calls a function of the library that takes none.
fn ask_library<'a>(
    alloc: Global,
    m: &mut Machine<'a>,
    lib: Lib,
    types: &Items<Ty>,
    arg: Value,
) -> Result<Focus<'a>, Halt>
    ensures gives { (table : Table) → Went table m.new (bind (pay_for (library_cost lib (value_of arg)) m.old.left (λ rest. gives (library_value lib (map type_of types.now) (value_of arg)) rest))
        (rest table m.old.frames.items (context_of m.old))) result }
    ensures falls { IfOk result (λ f. weight m.new f ≤ 3 * m.old.left + 2 * length m.old.frames.items + 2) }
{
    let cost = lib_cost(lib, &arg);
    if m.left < cost {
        return Err(Halt::StepLimit);
    }
    m.left -= cost;
    Ok(Focus::Have(lib_value(alloc, lib, types, arg)?))
}

// Calls a function of the library.
fn call_library<'a>(
    alloc: Global,
    checked: &'a Checked,
    m: &mut Machine<'a>,
    lib: Lib,
    types: &Items<Ty>,
    arg: Value,
) -> Result<Focus<'a>, Halt>
    ensures gives { (x : Foreign) → let table = table_of x checked.now in
        Went table m.new (bind (evaluation.apply_fun table (evaluate table) (OfLib lib) (map type_of types.now) (value_of arg) m.old.left)
        (rest table m.old.frames.items (context_of m.old))) result }
    ensures falls { IfOk result (λ f. weight m.new f ≤ 3 * m.old.left + 2 * length m.old.frames.items + 2) }
{
    if is_iterator(lib) {
        iterate(alloc, checked, m, lib, arg)
    } else {
        ask_library(alloc, m, lib, types, arg)
    }
}

/// Calls a function on a value: goes on with the body of a function of the source, or with `Ask` where it has none; with the first
/// turn of an iterator; with the value of any other function of the library, whose cost is paid. `StepLimit` where the budget is less
/// than what the call pays for; `Stuck` where the definition is stuck, as where `fun` is no function; `Memory` for want of memory.
pub fn apply<'a>(
    alloc: Global,
    checked: &'a Checked,
    m: &mut Machine<'a>,
    fun: Value,
    arg: Value,
) -> Result<Focus<'a>, Halt>
    ensures gives { (x : Foreign) → let table = table_of x checked.now in
        Went table m.new (bind (evaluation.apply table (evaluate table) (value_of fun) (value_of arg) m.old.left)
        (rest table m.old.frames.items (context_of m.old))) result }
    ensures falls { IfOk result (λ f. weight m.new f ≤ 3 * m.old.left + 2 * length m.old.frames.items + 2) }
{
    match &fun {
        Value::Fun(Fun::User(at), types) => enter(alloc, checked, m, *at, types, arg),
        Value::Fun(Fun::Lib(lib), types) => call_library(alloc, checked, m, *lib, types, arg),
        _ => Err(Halt::Stuck),
    }
}

/// A condition: the branch for it is evaluated next.
pub(crate) fn take_branch<'a>(
    m: &mut Machine<'a>,
    yes: &'a Term<Typed>,
    no: &'a Term<Typed>,
    value: Value,
) -> Result<Focus<'a>, Halt>
    ensures gives { (table : Table) → Went table m.new
        (on table (frames.Branches yes.entry no.entry) (rest table m.old.frames.items) (context_of m.old) (value_of value) m.old.left) result }
    ensures falls { IfOk result (λ f. weight m.new f ≤ 3 * m.old.left + 2 * length m.old.frames.items + 2) }
{
    Ok(Focus::Want(if value.is_true() { yes } else { no }))
}

/// A matched alternative: the body for it, or the one for all others.
pub(crate) fn take_arm<'a>(
    m: &mut Machine<'a>,
    name: &'a Name,
    found: &'a Term<Typed>,
    other: &'a Term<Typed>,
    value: Value,
) -> Result<Focus<'a>, Halt>
    ensures gives { (table : Table) → Went table m.new
        (on table (frames.Arms name.entry found.entry other.entry) (rest table m.old.frames.items) (context_of m.old) (value_of value) m.old.left) result }
    ensures falls { IfOk result (λ f. weight m.new f ≤ 3 * m.old.left + 2 * length m.old.frames.items + 2) }
{
    if value.has_name(name) {
        with_one(m, value.into_payload(), found)
    } else {
        with_one(m, value, other)
    }
}

/// One more field of a record that is made, and then the next one.
pub(crate) fn next_field<'a>(
    m: &mut Machine<'a>,
    done: Items<Value>,
    terms: &'a [FieldTerm<Typed>],
    value: Value,
) -> Result<Focus<'a>, Halt>
    ensures gives { (table : Table) → Went table m.new
        (on table (frames.Fields done terms.entry) (rest table m.old.frames.items) (context_of m.old) (value_of value) m.old.left) result }
    ensures falls { IfOk result (λ f. weight m.new f ≤ 3 * m.old.left + 2 * length m.old.frames.items + 2) }
{
    let mut done = done;
    done.push(value)?;
    fields(m, done, terms)
}

/// A field is taken out of a record: the body has both.
pub(crate) fn open<'a>(
    m: &mut Machine<'a>,
    at: usize,
    body: &'a Term<Typed>,
    value: Value,
) -> Result<Focus<'a>, Halt>
    ensures gives { (table : Table) → Went table m.new
        (on table (frames.Open at body.entry) (rest table m.old.frames.items) (context_of m.old) (value_of value) m.old.left) result }
    ensures falls { IfOk result (λ f. weight m.new f ≤ 3 * m.old.left + 2 * length m.old.frames.items + 2) }
{
    let (field, record) = value.split_field(at);
    with_two(m, record, field, body)
}

/// A record gets a field, whose value costs 1 beside its nodes.
pub(crate) fn put_into<'a>(
    m: &mut Machine<'a>,
    at: usize,
    term: &'a Term<Typed>,
    value: Value,
) -> Result<Focus<'a>, Halt>
    ensures gives { (table : Table) → Went table m.new
        (on table (frames.Into at term.entry) (rest table m.old.frames.items) (context_of m.old) (value_of value) m.old.left) result }
    ensures falls { IfOk result (λ f. weight m.new f ≤ 3 * m.old.left + 2 * length m.old.frames.items + 2) }
{
    if m.left == 0 {
        return Err(Halt::StepLimit);
    }
    m.left -= 1;
    descend(m, Frame::Place(at, value), term)
}

/// A call ends: its caller's variables are back.
pub(crate) fn go_back<'a>(
    m: &mut Machine<'a>,
    values: Vec<Value>,
    types: Items<Ty>,
    value: Value,
) -> Focus<'a>
    ensures gives { (table : Table) → said table m.new result ≡ on table (frames.Back values types) (rest table m.old.frames.items) (context_of m.old) (value_of value) m.old.left }
    ensures falls { weight m.new result ≤ 3 * m.old.left + 2 * length m.old.frames.items + 2 }
{
    drop(std::mem::replace(&mut m.values, values));
    drop(std::mem::replace(&mut m.types, types));
    Focus::Have(value)
}

/// A scope ends: so many variables are left.
pub(crate) fn leave<'a>(m: &mut Machine<'a>, count: usize, value: Value) -> Focus<'a>
    ensures gives { (table : Table) → said table m.new result ≡ on table (frames.Leave count) (rest table m.old.frames.items) (context_of m.old) (value_of value) m.old.left }
    ensures falls { weight m.new result ≤ 3 * m.old.left + 2 * length m.old.frames.items + 2 }
{
    m.values.truncate(count);
    Focus::Have(value)
}
