// The marks of a split, and what is present in a part that doesn't touch it.
#![tactic(auto)]

ghost use Rattle.std.specs.Prelude.{◌≡◌, ◌&&◌, ◌++◌, not, IfOk};
ghost use Rattle.cg_check_uses.specs.Marks as splits;
ghost use Rattle.cg_check_uses.specs.Uses.{is_seen};

use crate::entry::Use;
use cg_base::{Items, Memory, Place};
use cg_core::Mark;
use std::alloc::Global;

// The mark of a variable that each side touches or not.
fn mark_of(first: bool, second: bool) -> Mark
    ensures { result ≡ splits.mark_of first second }
{
    match (first, second) {
        (true, true) => Mark::Both,
        (true, false) => Mark::Left,
        (false, true) => Mark::Right,
        (false, false) => Mark::Gone,
    }
}

// The same of one that is observed or not.
fn mark_seen(seen: Option<Place>, first: Use, second: Use) -> Mark
    ensures { result ≡ splits.mark_seen seen first second }
{
    match seen {
        Some(_) => Mark::Seen,
        None => mark_of(first.touched, second.touched),
    }
}

/// The marks between two parts, by what they touch. Want of memory is its one refusal.
pub fn marks_of_uses(alloc: Global, first: &[Use], second: &[Use]) -> Result<Items<Mark>, Memory>
    ensures { IfOk result (λ marks. marks ≡ splits.marks_of_uses first.now second.now) }
{
    let mut marks = Items::new(alloc);
    for i in 0..first.len().min(second.len()) {
        marks.push(mark_of(first[i].touched, second[i].touched))?;
    }
    Ok(marks)
}

/// The marks of a `let!`, which observes some variables. Want of memory is its one refusal.
pub fn marks_seen(
    alloc: Global,
    seen: &[Option<Place>],
    first: &[Use],
    second: &[Use],
) -> Result<Items<Mark>, Memory>
    ensures { IfOk result (λ marks. marks ≡ splits.marks_seen seen.now first.now second.now) }
{
    let mut marks = Items::new(alloc);
    for i in 0..seen.len().min(first.len()).min(second.len()) {
        marks.push(mark_seen(seen[i], first[i], second[i]))?;
    }
    Ok(marks)
}

// Whether one branch doesn't touch a variable, and the other does.
fn is_beside(branch: Use, other: Use) -> bool
    ensures { result ≡ (not branch.touched && other.touched) }
{
    !branch.touched && other.touched
}

/// The variables that one branch doesn't touch, and the other does. Want of memory is its one refusal.
pub fn kept_beside(alloc: Global, branch: &[Use], other: &[Use]) -> Result<Vec<usize>, Memory>
    ensures { IfOk result (λ kept. kept.items ≡ splits.kept_beside branch.now other.now) }
{
    let mut kept = Vec::new(alloc);
    for i in 0..branch.len().min(other.len()) {
        if is_beside(branch[i], other[i]) {
            kept.push(i)?;
        }
    }
    Ok(kept)
}

// Whether a `let!` observes a variable, and this part of it doesn't touch it.
fn is_unseen(seen: Option<Place>, part: Use) -> bool
    ensures { result ≡ (is_seen seen && not part.touched) }
{
    seen.is_some() && !part.touched
}

/// The variables that a `let!` observes, and this part of it doesn't touch. Want of memory is its one refusal.
pub fn kept_seen(alloc: Global, seen: &[Option<Place>], part: &[Use]) -> Result<Vec<usize>, Memory>
    ensures { IfOk result (λ kept. kept.items ≡ splits.kept_seen seen.now part.now) }
{
    let mut kept = Vec::new(alloc);
    for i in 0..seen.len().min(part.len()) {
        if is_unseen(seen[i], part[i]) {
            kept.push(i)?;
        }
    }
    Ok(kept)
}

/// A new variable joins them where it isn't touched. Want of memory is its one refusal.
pub fn keep_new(kept: &mut Vec<usize>, at: usize, given: Use) -> Result<(), Memory>
    ensures { IfOk result (λ _. kept.new.items ≡ kept.old.items ++ splits.kept_new at given) }
{
    if !given.touched {
        kept.push(at)?;
    }
    Ok(())
}
