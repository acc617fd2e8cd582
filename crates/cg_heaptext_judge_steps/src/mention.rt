// Mentions of cells.
ghost use Rattle.std.specs.Prelude.{◌≡◌, ℕ, Some};
ghost use Rattle.cg_base.specs.Bytes.{digit, Each};
ghost use Rattle.cg_base.specs.Types.{type_of};
ghost use Rattle.cg_heaptext_def.specs.Footprints.{amounts, position_from};
ghost use Rattle.cg_heaptext_def.specs.HeapText.{addresses, cells_of};
ghost use Rattle.cg_heaptext_def.specs.Trees.{Cell, Heap, Written, amount, bare, first};
ghost use Rattle.cg_heaptext_entries.specs.Index.{numeral_of};
ghost use Rattle.cg_heaptext_judge_steps.specs.Sources.{AreThere, Enters, IsRead, Reaches};
ghost use Rattle.cg_heaptext_values.specs.Values.{StandsAt};

use crate::source::Source;
use cg_base::{Place, Ty};
use cg_heaptext_entries::Numeral;
use cg_heaptext_judge_notes::{JudgeFault, Judged};
use cg_heaptext_lexer::Lexer;
use cg_heaptext_values::{Head, ValueAt};

// Notes that the cell of the entry at this position is read at a type, and gives the cell.
fn enter_at<'r, 'a, 't>(
    source: &Source<'r, 'a>,
    judged: &mut Judged<'t>,
    ty: &'t Ty,
    place: Place,
    at: usize,
) -> Result<&'r Lexer<'a>, JudgeFault>
    ensures { (h : Heap) → IsRead source.now h → (q : ℕ) → position_from 0 (amounts h) q ≡ Some at → Enters h judged.old (type_of ty.now) place q result judged.new }
{
    match source.index.entries.get(at) {
        Some(entry) => {
            judged.mention(source.alloc, place, at, ty)?;
            Ok(&entry.cell)
        }
        None => Err(JudgeFault::Misfit(place)),
    }
}

// Notes that the cell at an address is read at a type, and gives the cell. Each address that is mentioned has a cell, so it is found.
fn enter<'r, 'a, 't>(
    source: &Source<'r, 'a>,
    judged: &mut Judged<'t>,
    ty: &'t Ty,
    place: Place,
    address: &Numeral,
) -> Result<&'r Lexer<'a>, JudgeFault>
    ensures { (h : Heap) → IsRead source.now h → Each digit address.now.digits.now → (c : Cell) → cells_of h (amount (numeral_of address.now)) ≡ Some c
        → Enters h judged.old (type_of ty.now) place (amount (numeral_of address.now)) result judged.new }
{
    match source.addresses.find(address) {
        Some(at) => enter_at(source, judged, ty, place, at),
        None => Err(JudgeFault::Misfit(place)),
    }
}

/// Notes that the cell whose address a value is, is read at a type, and gives where the cell begins; a value that is no address doesn't fit
/// (docs/LANGUAGE.md, "Heap files", H4 and H6); or `Memory` where memory is wanting. It takes time in proportion to what was noted before.
pub fn mentioned<'r, 'a, 't>(
    source: &Source<'r, 'a>,
    judged: &mut Judged<'t>,
    ty: &'t Ty,
    value: &ValueAt,
) -> Result<&'r Lexer<'a>, JudgeFault>
    ensures { (h : Heap) → IsRead source.now h → (v : Written) → StandsAt value.now v → AreThere h (addresses (bare v)) → Reaches h judged.old (type_of ty.now) (first v) (bare v) result judged.new }
{
    match value.head() {
        Head::Address(place, address) => enter(source, judged, ty, place, &address),
        _ => Err(JudgeFault::Misfit(value.place())),
    }
}
