// Which cells the argument reaches.
ghost use Rattle.std.specs.Prelude.{◌≡◌, ◌++◌, IfOk, OnOk};
ghost use Rattle.cg_base.specs.Types.{type_of};
ghost use Rattle.cg_heaptext_def.specs.Footprints.{sigil_of as sigil_of_type};
ghost use Rattle.cg_heaptext.specs.Reach.{is_at, mentioned_at, reached_by};

use cg_base::{Items, Memory, Sigil, Ty};
use cg_heaptext_contents::Placed;
use cg_heaptext_judge_notes::Mentioned;
use std::alloc::Global;

// The sigil of a type; `U` of one that is no record and not abstract.
fn sigil_of(ty: &Ty) -> Sigil
    ensures { result ≡ sigil_of_type (type_of ty.now) }
{
    match ty {
        Ty::Abs(_, _, sigil) => *sigil,
        Ty::Fields(_, sigil) => *sigil,
        _ => Sigil::U,
    }
}

// Whether a cell of a sigil is reached at one.
fn is_reached(at: Sigil, sigil: Sigil) -> bool
    ensures { result ≡ is_at at sigil }
{
    match at {
        Sigil::R => match sigil {
            Sigil::R => true,
            Sigil::W => false,
            Sigil::U => false,
        },
        Sigil::W => match sigil {
            Sigil::W => true,
            Sigil::R => false,
            Sigil::U => false,
        },
        Sigil::U => false,
    }
}

// Adds the address of the cell that is mentioned, where it is at a type of this sigil.
fn add(
    found: &mut Items<u64>,
    cells: &Items<Placed>,
    mention: &Mentioned,
    at: Sigil,
) -> Result<(), Memory>
    ensures { OnOk result (found.new ≡ found.old ++ reached_by at cells.now mention.now) }
{
    if !is_reached(at, sigil_of(mention.ty)) {
        return Ok(());
    }
    match cells.get(mention.entry) {
        Some(placed) => found.push(placed.at),
        None => Ok(()),
    }
}

// The addresses of the cells that are mentioned at types of a sigil, in the order of the mentions.
pub(crate) fn addresses_at(
    alloc: Global,
    cells: &Items<Placed>,
    mentions: &Items<Mentioned>,
    at: Sigil,
) -> Result<Items<u64>, Memory>
    ensures { IfOk result (λ ns. ns ≡ mentioned_at at cells.now mentions.now) }
{
    let mut found = Items::new(alloc);
    for mention in mentions.as_slice() {
        add(&mut found, cells, mention, at)?;
    }
    Ok(found)
}
