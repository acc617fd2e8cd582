// The argument of a heap file, judged.
ghost use Rattle.std.specs.Prelude.{ℕ, List};
ghost use Rattle.cg_base.specs.Types.{type_of};
ghost use Rattle.cg_heaptext_def.specs.Footprints.{amounts};
ghost use Rattle.cg_heaptext_def.specs.Grammar.{HeapSpells};
ghost use Rattle.cg_heaptext_def.specs.HeapText.{Lacks, absent, second};
ghost use Rattle.cg_heaptext_def.specs.Trees.{Heap};
ghost use Rattle.cg_heaptext_entries.specs.Index.{IsIndex};
ghost use Rattle.cg_heaptext_index.specs.Addresses.{IsMapOf};
ghost use Rattle.cg_heaptext_judge.specs.Answers.{Answers};

use crate::reading::judge_value;
use cg_base::Ty;
use cg_heaptext_entries::Index;
use cg_heaptext_index::Addresses;
use cg_heaptext_judge_laws::runs_judge;
use cg_heaptext_judge_notes::{JudgeFault, Judged};
use cg_heaptext_judge_steps::Source;
use cg_heaptext_values::ValueAt;
use std::alloc::Global;

/// What is noted as the argument of a heap file is read at a type (docs/LANGUAGE.md, "Heap files"): the cells that are read, in order, with the
/// positions of their entries and the types; the earliest number that passes its type, which is H5; and the first alias, which is H6. Or the
/// place of what is met first that doesn't fit, which is H4; or `Memory` where memory is wanting. No entry has the address of an earlier one,
/// and each address that is mentioned has an entry.
pub fn judge<'r, 'a, 't>(
    alloc: Global,
    index: &'r Index<'a>,
    addresses: &'r Addresses<'a>,
    ty: &'t Ty,
) -> Result<Judged<'t>, JudgeFault>
    ensures { (bytes : List ℕ) (h : Heap) → HeapSpells bytes h → IsIndex index.now h → IsMapOf addresses.now (amounts h) → Lacks second h (type_of ty.now) → Lacks absent h (type_of ty.now) → Answers h (type_of ty.now) result }
{
    runs_judge();
    let source = Source {
        alloc,
        index,
        addresses,
    };
    let mut judged = Judged::new(alloc);
    judge_value(&source, &mut judged, ty, &ValueAt::argument(index))?;
    Ok(judged)
}
