// Values without cells and without parts.
#![tactic(auto, unfolding(cg_heaptext_def::specs::Reading::events))]

ghost use Rattle.std.specs.Prelude.{◌≡◌, [], ◌∷◌, ℕ, List, Option, if◌then◌else◌};
ghost use Rattle.cg_base.specs.Types.{bool as truths, unit, word as word_of};
ghost use Rattle.cg_heaptext_def.specs.Reading.{events, is_gone, misfit as misfits};
ghost use Rattle.cg_heaptext_def.specs.Trees.{Cell, Written, bare, first};
ghost use Rattle.cg_heaptext_judge_notes.specs.Notes.{Notes};
ghost use Rattle.cg_heaptext_judge_steps.specs.Steps.{Fits};
ghost use Rattle.cg_heaptext_values.specs.Values.{StandsAt};

use cg_base::Word;
use cg_heaptext_judge_notes::{JudgeFault, Judged, note_number};
use cg_heaptext_judge_parts::most_of;
use cg_heaptext_values::{Head, ValueAt};

/// Tells that a value doesn't fit its type (docs/LANGUAGE.md, "Heap files", H4).
pub fn misfit(value: &ValueAt) -> Result<(), JudgeFault>
    ensures { (v : Written) → StandsAt value.now v → Fits (misfits (first v) ∷ []) result }
{
    Err(JudgeFault::Misfit(value.place()))
}

/// Whether a value is `()`; else it doesn't fit unit (docs/LANGUAGE.md, "Heap files").
pub fn judge_unit(value: &ValueAt) -> Result<(), JudgeFault>
    ensures { (cells : ℕ → Option Cell) (v : Written) → StandsAt value.now v → Fits (events cells unit (first v) (bare v)) result }
{
    match value.head() {
        Head::Nothing => Ok(()),
        _ => misfit(value),
    }
}

/// Whether a value is `True` or `False`; else it doesn't fit `Bool` (docs/LANGUAGE.md, "Heap files").
pub fn judge_truth(value: &ValueAt) -> Result<(), JudgeFault>
    ensures { (cells : ℕ → Option Cell) (v : Written) → StandsAt value.now v → Fits (events cells truths (first v) (bare v)) result }
{
    match value.head() {
        Head::Truth(_) => Ok(()),
        _ => misfit(value),
    }
}

/// Whether a value is `_`; else it doesn't fit a field that is taken (docs/LANGUAGE.md, "Heap files").
pub fn judge_gone(value: &ValueAt) -> Result<(), JudgeFault>
    ensures { (v : Written) → StandsAt value.now v → Fits (if is_gone (bare v) then [] else misfits (first v) ∷ []) result }
{
    match value.head() {
        Head::Gone => Ok(()),
        _ => misfit(value),
    }
}

/// Notes the number that a value is, where it passes a word; what is no number doesn't fit (docs/LANGUAGE.md, "Heap files", H4 and H5).
pub fn judge_word(judged: &mut Judged, word: Word, value: &ValueAt) -> Result<(), JudgeFault>
    ensures { (ns : List ℕ) (cells : ℕ → Option Cell) (v : Written) → StandsAt value.now v → Notes ns judged.old (events cells (word_of word) (first v) (bare v)) result judged.new }
{
    match value.head() {
        Head::Number(number) => {
            judged.over = note_number(judged.over, &number, most_of(word));
            Ok(())
        }
        _ => misfit(value),
    }
}
