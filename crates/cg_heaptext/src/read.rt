// Reading a heap file at a type.
ghost use Rattle.std.specs.Prelude.{◌≡◌, ◌≤◌, ℕ, List, IfOk};
ghost use Rattle.cg_base.specs.Types.{Tau, type_of};
ghost use Rattle.cg_heaptext_contents.specs.Placings.{IsPlacing};
ghost use Rattle.cg_heaptext_def.specs.Footprints.{amounts};
ghost use Rattle.cg_heaptext_def.specs.HeapText.{IsLarge, IsOver, Lacks, LacksBefore, over as passing, read_events};
ghost use Rattle.cg_heaptext_def.specs.Trees.{Heap};
ghost use Rattle.cg_heaptext_judge_def.specs.Judging.{IsFirstAlias, met_in};
ghost use Rattle.cg_heaptext_judge_notes.specs.Notes.{AreMet};
ghost use Rattle.cg_heaptext_mentions.specs.Judged.{IsOut};
ghost use Rattle.cg_heaptext_places.specs.Noted.{IsLeast};
ghost use Rattle.cg_heaptext.specs.Answers.{Answers};
ghost use Rattle.cg_heaptext.specs.Typed.{Faultless, Gives, Holds, IsFile, IsSound, Passes};
ghost use Rattle.cg_typing.specs.Parts.{nodes, type_size};

use crate::fault::HeapFault;
use crate::reach::addresses_at;
use crate::start::Start;
use cg_base::{Items, Memory, Place, Sigil, Ty};
use cg_heaptext_contents::{Placing, place_cells};
use cg_heaptext_entries::{Index, read_entries};
use cg_heaptext_index::{Addresses, addresses};
use cg_heaptext_judge::judge;
use cg_heaptext_judge_notes::Mentioned;
use cg_heaptext_mentions::judge_mentions;
use cg_heaptext_places::earliest;
use cg_heaptext_scalars::scalars_at;
use cg_heaptext_value::value_at;
use cg_heaptext_values::ValueAt;
use std::alloc::Global;

/// What a heap file holds at the type of an argument (docs/LANGUAGE.md, "Heap files"): its cells, the argument's scalars, the value that
/// they stand for, and what the argument reaches; or the first of H1 to H7, each looked for over the whole file before the next, with its
/// line; or `Memory` where memory is wanting. It takes time in proportion to the file, the value, what nests in the type, and for each entry to
/// the mentions.
pub fn read_heap(alloc: Global, bytes: &[u8], ty: &Ty) -> Result<Start, HeapFault>
    ensures { Answers bytes.now (type_of ty.now) result }
{
    let index = read_entries(alloc, bytes)?;
    read_index(alloc, &index, ty)
}

// The same of a file whose entries were found.
fn read_index<'a>(alloc: Global, index: &Index<'a>, ty: &Ty) -> Result<Start, HeapFault>
    ensures { (h : Heap) → IsFile index.now h → Gives h (type_of ty.now) result }
{
    let addresses = addresses(alloc, index)?;
    let mentions = judge_mentions(index, &addresses);
    match mentions.absent {
        Some(place) => Err(HeapFault::H3(place.line)),
        None => read_typed(alloc, index, &addresses, ty, mentions.out),
    }
}

// The same where all addresses that are mentioned have one entry, and the first that is out of range was found.
fn read_typed<'r, 'a>(
    alloc: Global,
    index: &'r Index<'a>,
    addresses: &'r Addresses<'a>,
    ty: &Ty,
    out: Option<Place>,
) -> Result<Start, HeapFault>
    ensures { (h : Heap) → IsSound index.now addresses.now h → IsLeast (IsOut h) out → Gives h (type_of ty.now) result }
{
    let judged = judge(alloc, index, addresses, ty)?;
    let placing = place_cells(alloc, &index.entries, &judged.mentions)?;
    let over = earliest(earliest(judged.over, placing.over), out);
    no_fault(over, judged.aliased, placing.large)?;
    Ok(start(alloc, index, addresses, ty, &judged.mentions, placing)?)
}

// The first of the faults that are looked for last.
fn no_fault(
    over: Option<Place>,
    aliased: Option<Place>,
    large: Option<Place>,
) -> Result<(), HeapFault>
    ensures { (h : Heap) (t : Tau) → LacksBefore passing h t → IsLeast (IsOver h t) over → IsFirstAlias (read_events h t) aliased → IsLeast (IsLarge h) large → Passes h t result }
{
    match (over, aliased, large) {
        (Some(place), _, _) => Err(HeapFault::H5(place.line)),
        (None, Some(place), _) => Err(HeapFault::H6(place.line)),
        (None, None, Some(place)) => Err(HeapFault::H7(place.line)),
        (None, None, None) => Ok(()),
    }
}

// What a file without faults holds.
fn start(
    alloc: Global,
    index: &Index,
    addresses: &Addresses,
    ty: &Ty,
    mentions: &Items<Mentioned>,
    placing: Placing,
) -> Result<Start, Memory>
    ensures { (h : Heap) → IsSound index.now addresses.now h → Faultless h (type_of ty.now) → nodes (type_of ty.now) ≤ type_size → AreMet (amounts h) mentions.now (met_in (read_events h (type_of ty.now))) → IsPlacing h (type_of ty.now) placing
        → IfOk result (λ s. Holds h (type_of ty.now) s) }
{
    let argument = ValueAt::argument(index);
    let arg = scalars_at(alloc, ty, &argument)?;
    let value = value_at(alloc, index, addresses, ty, &argument)?;
    let reads = addresses_at(alloc, &placing.cells, mentions, Sigil::R)?;
    let writes = addresses_at(alloc, &placing.cells, mentions, Sigil::W)?;
    Ok(Start {
        cells: placing.cells,
        arg,
        value,
        reads,
        writes,
    })
}
