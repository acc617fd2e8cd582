// Statements that call nothing.
#![tactic(auto, using(crate::proofs::Steps::machine_steps))]

ghost use Rattle.std.specs.Prelude.{◌≡◌, ◌<◌, ◌≤◌, ◌+◌, ◌^◌, ℕ, IfOk, length};
ghost use Rattle.cg_cmachine_layout.specs.Kinds.{layout_of};
ghost use Rattle.cg_cmachine_builtins.specs.Called.{state_of};
ghost use Rattle.cg_cmachine_running.specs.declared.machine.Next.TheVariants.{Goes};
ghost use Rattle.cg_cmachine_running.specs.Flat.{IsRightWithin, first_case, plain_at, put_at, word_at};
ghost use Rattle.cg_cmachine_running.specs.Machine.{Asked, Comes, Follows, IsNext, IsState, block, by_names, inner, inner_case, turned, weight};
ghost use Rattle.cg_cmachine_resolve.specs.Resolutions.{Resolution};
ghost use Rattle.cg_cmachine_def.specs.Operands.{give as give_of};
ghost use Rattle.cg_cmachine_def.specs.Outcomes.{done, lift, on};
ghost use Rattle.cg_cmachine_def.specs.Runs.{back as back_of, choose, onward};
ghost use Rattle.cg_cmachine_resolve.specs.declared.line.Right.TheVariants.{Binary, IsNull};
ghost use Rattle.cg_heap.specs.Stored.{Stored};
ghost use Rattle.cg_cmachine_values.specs.Values.{IsOperandWithin, IsWithin, Tries, judged, value_of};

use crate::machine::{Kont, Machine, Next};
use cg_base::Word;
use cg_cmachine_resolve::{Position, Right};
use cg_cmachine_values::{
    CValue, Operand, Place, RunFault, address_in, compute, convert, flip, give, judge, word_in,
    write,
};
use cg_ctree::{COp, Why};
use cg_heap::{Scalar, Store};
use std::alloc::Global;

/// An operand that is a word of any width.
fn judge_word<'a, S: Store>(
    alloc: Global,
    store: &S,
    slots: &[Scalar],
    operand: &Operand<'a>,
) -> Result<u64, RunFault>
    requires within { IsOperandWithin (length slots.now) operand.now }
    ensures { Tries (λ n. n) (word_at (S.stored store.now) slots.now operand.now) result }
{
    let value = judge(alloc, store, slots, operand)?;
    match word_in(&value) {
        Ok(number) => Ok(number),
        Err(why) => Err(RunFault::Stuck(why)),
    }
}

/// A block comes first, and then the statements from an index of the block at hand on.
fn descend<'a>(m: &mut Machine<'a>, inside: usize, index: usize) -> Result<Next<'a>, RunFault>
    ensures gives { (r : Resolution) (asked : Asked) (n : ℕ) (store : Stored) → Comes r asked n m.old
        (onward (inner r asked n m.old store inside) (block r asked n (record { function = m.old.frame.at.function; block = m.old.frame.at.block; index = index }))) m.new store result }
    ensures state { (r : Resolution) → IsState r m.old → IfOk result (λ next. IsState r m.new × IsNext r m.new next) }
    ensures falls { IfOk result (λ next. weight m.new next ≤ weight m.old Goes + 1) }
    ensures within { m.new.left ≡ m.old.left }
{
    m.stack.push(Kont::After(m.frame.at.block, index))?;
    m.frame.at.block = inside;
    m.frame.at.index = 0;
    Ok(Next::Goes)
}

/// An `if`, whose step is counted.
pub(crate) fn branch<'a, S: Store>(
    alloc: Global,
    m: &mut Machine<'a>,
    store: &S,
    operand: &Operand<'a>,
    yes: usize,
    no: usize,
) -> Result<Next<'a>, RunFault>
    requires within { IsOperandWithin (length m.old.frame.slots.items) operand.now }
    requires small { m.old.frame.at.index + 1 < 2 ^ 64 }
    ensures gives { (r : Resolution) (asked : Asked) (n : ℕ) → Follows r asked n m.old
        (lift (S.stored store.now) (word_at (S.stored store.now) m.old.frame.slots.items operand.now) (λ k.
        choose k (inner r asked n m.old (S.stored store.now) yes) (inner r asked n m.old (S.stored store.now) no))) m.new (S.stored store.now) result }
    ensures state { (r : Resolution) → IsState r m.old → IfOk result (λ next. IsState r m.new × IsNext r m.new next) }
    ensures falls { IfOk result (λ next. weight m.new next ≤ weight m.old Goes + 1) }
    ensures within { m.new.left ≡ m.old.left }
{
    let next = m.frame.at.index + 1;
    if judge_word(alloc, store, m.frame.slots.as_slice(), operand)? == 0 {
        descend(m, no, next)
    } else {
        descend(m, yes, next)
    }
}

/// The test of a loop, whose step is counted: behind a turn the loop is tested again.
pub(crate) fn turn<'a, S: Store>(
    alloc: Global,
    m: &mut Machine<'a>,
    store: &S,
    operand: &Operand<'a>,
    body: usize,
) -> Result<Next<'a>, RunFault>
    requires within { IsOperandWithin (length m.old.frame.slots.items) operand.now }
    requires small { m.old.frame.at.index + 1 < 2 ^ 64 }
    ensures gives { (r : Resolution) (asked : Asked) (n : ℕ) → Comes r asked n m.old
        (lift (S.stored store.now) (word_at (S.stored store.now) m.old.frame.slots.items operand.now) (turned r asked n m.old (S.stored store.now) body)) m.new (S.stored store.now) result }
    ensures state { (r : Resolution) → IsState r m.old → IfOk result (λ next. IsState r m.new × IsNext r m.new next) }
    ensures falls { IfOk result (λ next. weight m.new next ≤ weight m.old Goes + 1) }
    ensures within { m.new.left ≡ m.old.left }
{
    if judge_word(alloc, store, m.frame.slots.as_slice(), operand)? == 0 {
        m.frame.at.index += 1;
        return Ok(Next::Goes);
    }
    let here = m.frame.at.index;
    descend(m, body, here)
}

/// The block of the first case of a number, found by a walk.
fn find_case(number: u64, cases: &[(u64, usize)]) -> Option<usize>
    ensures { result ≡ first_case number cases.now }
{
    for case in cases {
        if number == case.0 {
            return Some(case.1);
        }
    }
    None
}

/// A `switch`, whose step is counted.
pub(crate) fn switch<'a, S: Store>(
    alloc: Global,
    m: &mut Machine<'a>,
    store: &S,
    operand: &Operand<'a>,
    cases: &[(u64, usize)],
) -> Result<Next<'a>, RunFault>
    requires within { IsOperandWithin (length m.old.frame.slots.items) operand.now }
    requires small { m.old.frame.at.index + 1 < 2 ^ 64 }
    ensures gives { (r : Resolution) (asked : Asked) (n : ℕ) → Follows r asked n m.old
        (lift (S.stored store.now) (word_at (S.stored store.now) m.old.frame.slots.items operand.now) (λ k.
        inner_case r asked n m.old (S.stored store.now) (first_case k cases.now))) m.new (S.stored store.now) result }
    ensures state { (r : Resolution) → IsState r m.old → IfOk result (λ next. IsState r m.new × IsNext r m.new next) }
    ensures falls { IfOk result (λ next. weight m.new next ≤ weight m.old Goes + 1) }
    ensures within { m.new.left ≡ m.old.left }
{
    let next = m.frame.at.index + 1;
    let number = judge_word(alloc, store, m.frame.slots.as_slice(), operand)?;
    match find_case(number, cases) {
        None => Err(RunFault::Stuck(Why::NoCase)),
        Some(block) => descend(m, block, next),
    }
}

/// A `return`, whose step is counted.
pub(crate) fn give_back<'a, S: Store>(
    alloc: Global,
    m: &mut Machine<'a>,
    store: &S,
    operand: &Operand<'a>,
) -> Result<Next<'a>, RunFault>
    requires within { IsOperandWithin (length m.old.frame.slots.items) operand.now }
    ensures gives { (r : Resolution) (asked : Asked) (n : ℕ) → Follows r asked n m.old
        (lift (S.stored store.now) (on (judged (S.stored store.now) m.old.frame.slots.items operand.now) (give_of (layout_of m.old.frame.kind))) (λ us.
        done (back_of us) (state_of (S.stored store.now) m.old.changes) m.old.left)) m.new (S.stored store.now) result }
    ensures state { (r : Resolution) → IsState r m.old → IfOk result (λ next. IsState r m.new × IsNext r m.new next) }
    ensures falls { IfOk result (λ next. weight m.new next ≤ weight m.old Goes + 1) }
    ensures within { m.new.left ≡ m.old.left }
{
    let value = judge(alloc, store, m.frame.slots.as_slice(), operand)?;
    match give(m.frame.kind, value) {
        Ok(value) => Ok(Next::Back(value)),
        Err(why) => Err(RunFault::Stuck(why)),
    }
}

/// An operation on two operands.
fn binary<'a, S: Store>(
    alloc: Global,
    store: &S,
    slots: &[Scalar],
    words: (Word, Word),
    op: COp,
    operands: (&Operand<'a>, &Operand<'a>),
) -> Result<CValue<'a>, RunFault>
    requires left { IsOperandWithin (length slots.now) operands.0.now }
    requires right { IsOperandWithin (length slots.now) operands.1.now }
    ensures { Tries value_of (plain_at (S.stored store.now) slots.now (Binary words.0 words.1 op operands.entry.0.now operands.entry.1.now)) result }
{
    let left = judge_word(alloc, store, slots, operands.0)?;
    let right = judge_word(alloc, store, slots, operands.1)?;
    match compute(words.0, words.1, op, left, right) {
        Ok(value) => Ok(value),
        Err(why) => Err(RunFault::Stuck(why)),
    }
}

/// A null test.
fn null_test<'a, S: Store>(
    alloc: Global,
    store: &S,
    slots: &[Scalar],
    operand: &Operand<'a>,
) -> Result<CValue<'a>, RunFault>
    requires within { IsOperandWithin (length slots.now) operand.now }
    ensures { Tries value_of (plain_at (S.stored store.now) slots.now (IsNull operand.now)) result }
{
    let value = judge(alloc, store, slots, operand)?;
    match address_in(&value) {
        Ok(address) => Ok(CValue::Word(Word::U8, if address == 0 { 1 } else { 0 })),
        Err(why) => Err(RunFault::Stuck(why)),
    }
}

/// What stands on the right of an assignment, beside calls and `cg_new`.
fn plain<'a, S: Store>(
    alloc: Global,
    store: &S,
    slots: &[Scalar],
    right: &Right<'a>,
) -> Result<CValue<'a>, RunFault>
    requires within { IsRightWithin (length slots.now) right.now }
    ensures { Tries value_of (plain_at (S.stored store.now) slots.now right.now) result }
{
    match right {
        Right::Operand(operand) => judge(alloc, store, slots, operand),
        Right::Convert(word, operand) => {
            Ok(convert(*word, judge_word(alloc, store, slots, operand)?))
        }
        Right::Binary(outer, inner, op, left, right) => {
            binary(alloc, store, slots, (*outer, *inner), *op, (left, right))
        }
        Right::Flip(outer, inner, operand) => {
            Ok(flip(*outer, *inner, judge_word(alloc, store, slots, operand)?))
        }
        Right::IsNull(operand) => null_test(alloc, store, slots, operand),
        Right::Call(_, _) | Right::New(_, _, _) => Err(RunFault::Stuck(Why::KindsDiffer)),
    }
}

/// An assignment of other than a call or `cg_new`, whose step is counted.
pub(crate) fn assign<'a, S: Store>(
    alloc: Global,
    m: &mut Machine<'a>,
    store: &mut S,
    place: Place<'a>,
    right: &Right<'a>,
) -> Result<Next<'a>, RunFault>
    requires within { IsRightWithin (length m.old.frame.slots.items) right.now }
    requires place { IsWithin (length m.old.frame.slots.items) place }
    requires small { m.old.frame.at.index + 1 < 2 ^ 64 }
    ensures gives { (r : Resolution) (asked : Asked) (n : ℕ) → Follows r asked n m.old
        (by_names r asked n m.old.frame.at.function (lift (S.stored store.old) (plain_at (S.stored store.old) m.old.frame.slots.items right.now) (λ v.
        put_at m.old.frame.slots.items place.entry v (state_of (S.stored store.old) m.old.changes) m.old.left))) m.new (S.stored store.new) result }
    ensures state { (r : Resolution) → IsState r m.old → IfOk result (λ next. IsState r m.new × IsNext r m.new next) }
    ensures falls { IfOk result (λ next. weight m.new next ≤ weight m.old Goes + 1) }
    ensures within { m.new.left ≡ m.old.left }
    ensures top { (S.stored store.new).top ≡ (S.stored store.old).top }
{
    let value = plain(alloc, store, m.frame.slots.as_slice(), right)?;
    match write(store, m.frame.slots.as_mut_slice(), place, value) {
        Ok(()) => {
            m.frame.at.index += 1;
            Ok(Next::Goes)
        }
        Err(why) => Err(RunFault::Stuck(why)),
    }
}
