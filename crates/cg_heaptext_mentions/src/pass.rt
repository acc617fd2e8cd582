// The pass over all addresses of a heap file.
ghost use Rattle.std.specs.Prelude.{◌≡◌, ℕ, List, map, None};
ghost use Rattle.cg_heaptext_def.specs.Footprints.{amounts};
ghost use Rattle.cg_heaptext_def.specs.Grammar.{HeapSpells};
ghost use Rattle.cg_heaptext_def.specs.HeapText.{IsAbsent};
ghost use Rattle.cg_heaptext_def.specs.Trees.{Heap};
ghost use Rattle.cg_heaptext_entries.specs.Index.{IsIndex, numeral_of};
ghost use Rattle.cg_heaptext_places.specs.Noted.{IsLeast};
ghost use Rattle.cg_heaptext_index.specs.Addresses.{IsMapOf};
ghost use Rattle.cg_heaptext_mentions.specs.Judged.{IsOut, absent_after, numerals_after, out_after};
ghost use Rattle.cg_heaptext_mentions.specs.Scans.{ScansCell, ScansCells};

use crate::found::{Mentions, note_out};
use crate::scan::scan;
use cg_base::Place;
use cg_heaptext_entries::{EntryAt, Index};
use cg_heaptext_index::Addresses;
use cg_heaptext_lexer::Lexer;

// The first address of an entry that is out of range.
fn entry_out(entries: &[EntryAt]) -> Option<Place>
    ensures { result ≡ numerals_after None (map (λ x. numeral_of x.address) entries.now) }
{
    let mut found = None;
    for entry in entries {
        found = note_out(found, &entry.address);
    }
    found
}

// What is found with the mentions of a cell.
fn scan_cell(before: Mentions, addresses: &Addresses, cell: &Lexer) -> Mentions
    ensures absent { (ns : List ℕ) → IsMapOf addresses.now ns → ScansCell (absent_after ns) cell.now before.absent result.absent }
    ensures out { ScansCell out_after cell.now before.out result.out }
{
    let mut inside = cell.copy();
    inside.next();
    scan(before, addresses, &inside)
}

// What is found with the mentions of all cells.
fn scan_cells(before: Mentions, addresses: &Addresses, entries: &[EntryAt]) -> Mentions
    ensures absent { (ns : List ℕ) → IsMapOf addresses.now ns → ScansCells (absent_after ns) entries.now before.absent result.absent }
    ensures out { ScansCells out_after entries.now before.out result.out }
{
    let mut found = before;
    for entry in entries {
        found = scan_cell(found, addresses, &entry.cell);
    }
    found
}

/// What is found of the addresses of a heap file (docs/LANGUAGE.md, "Heap files", H3 and H5): the first place of the file at which an
/// address is mentioned that has no entry, and the first at which an address is 0 or above 2^32 - 1, that of an entry or one that is
/// mentioned; `None` exactly where there is no such place. It takes no memory, and n log n time in the size of the file.
pub fn judge_mentions<'a>(index: &Index<'a>, addresses: &Addresses<'a>) -> Mentions
    ensures absent { (bytes : List ℕ) (h : Heap) → HeapSpells bytes h → IsIndex index.now h → IsMapOf addresses.now (amounts h) → IsLeast (IsAbsent h) result.absent }
    ensures out { (bytes : List ℕ) (h : Heap) → HeapSpells bytes h → IsIndex index.now h → IsLeast (IsOut h) result.out }
{
    let entries = index.entries.as_slice();
    let before = Mentions {
        absent: None,
        out: entry_out(entries),
    };
    let found = scan_cells(before, addresses, entries);
    scan(found, addresses, &index.argument)
}
