// The cells of a heap file, each with its address.
ghost use Rattle.std.specs.Prelude.{◌≡◌, ◌++◌, [], ◌∷◌, nat_eq, IfOk, OnOk, if◌then◌else◌};
ghost use Rattle.std.specs.Option.{option_map};
ghost use Rattle.cg_base.specs.Types.{Tau, type_of};
ghost use Rattle.cg_heaptext_def.specs.Small.{capped_number};
ghost use Rattle.cg_heaptext_def.specs.Trees.{Heap, amount};
ghost use Rattle.cg_heaptext_entries.specs.Index.{AreEntries, numeral_of};
ghost use Rattle.cg_heaptext_places.specs.Noted.{joined, noted};
ghost use Rattle.cg_heaptext_contents.specs.Placings.{AreRead, IsPlacing, is_too_large, read_type};

use crate::content::{Content, content_of};
use cg_base::{Items, Memory, Place, Ty};
use cg_heap::Cell;
use cg_heaptext_cells::number;
use cg_heaptext_entries::EntryAt;
use cg_heaptext_judge_notes::Mentioned;
use cg_heaptext_places::{earlier, earliest};
use std::alloc::Global;

/// How many entries a heap file may have.
const MOST_ENTRIES: usize = 65_536;

/// A cell with its address.
#[derive(Drop)]
pub struct Placed {
    pub at: u64,
    pub cell: Cell,
}

/// The cells of a heap file, in its order; the earliest number above 2^64 - 1 in a cell that nobody reads; and the earliest entry that is
/// one too many, or whose array has too many elements.
#[derive(Drop)]
pub struct Placing {
    pub cells: Items<Placed>,
    pub over: Option<Place>,
    pub large: Option<Place>,
}

impl Placing {
    // Adds what the entry at a position holds.
    fn add(
        &mut self,
        at: usize,
        entry: &EntryAt,
        is_read: bool,
        content: Content,
    ) -> Result<(), Memory>
        ensures over { OnOk result (self.new.over ≡ (if is_read then self.old.over else joined self.old.over content.over)) }
        ensures large { OnOk result (self.new.large ≡ (if is_too_large at content.many then noted self.old.large entry.now.place else self.old.large)) }
        ensures cells { OnOk result (self.new.cells ≡ self.old.cells ++ record { at = capped_number (amount (numeral_of entry.now.address)); cell = content.cell } ∷ []) }
    {
        if !is_read {
            self.over = earliest(self.over, content.over);
        }
        if at == MOST_ENTRIES || content.many {
            self.large = earlier(self.large, entry.place);
        }
        self.cells.push(Placed {
            at: number(entry.address.digits),
            cell: content.cell,
        })
    }
}

// The type at which the cell of the entry at a position is read first.
fn first_type<'t>(mentions: &[Mentioned<'t>], at: usize) -> Option<&'t Ty>
    ensures { option_map (λ t. type_of t.now) result ≡ read_type mentions.now at }
{
    for mention in mentions {
        if mention.entry == at {
            return Some(mention.ty);
        }
    }
    None
}

/// The cells of a heap file, each as it is read at the type of its first mention among these, or as nobody reads it (docs/LANGUAGE.md, "Heap
/// files"): which of its numbers that nobody reads is above 2^64 - 1 first, and which entry is too large first, is told with them. The one
/// error is want of memory. It takes time in proportion to the file, and for each entry to the mentions.
pub fn place_cells(
    alloc: Global,
    entries: &Items<EntryAt>,
    mentions: &Items<Mentioned>,
) -> Result<Placing, Memory>
    ensures { (h : Heap) (t : Tau) → AreEntries entries.now h.entries → AreRead h t mentions.now → IfOk result (λ p. IsPlacing h t p) }
{
    let mut placing = Placing {
        cells: Items::new(alloc),
        over: None,
        large: None,
    };
    for (at, entry) in entries.as_slice().iter().enumerate() {
        let ty = first_type(mentions.as_slice(), at);
        let content = content_of(alloc, entry, ty)?;
        placing.add(at, entry, ty.is_some(), content)?;
    }
    Ok(placing)
}
