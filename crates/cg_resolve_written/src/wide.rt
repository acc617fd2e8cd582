// How wide programs are.
#![tactic(auto, using(std::proofs::lemmas::Grind::common_steps, crate::proofs::ItemLists::widest_more))]

ghost use Rattle.std.specs.Prelude.{◌≡◌, ◌<◌, ◌↔◌, map, IsTrue};
ghost use Rattle.cg_surface.specs.Programs.{entry_of};
ghost use Rattle.cg_resolve_def.specs.Desugar.{parts_limit};
ghost use Rattle.cg_resolve_def.specs.Takes.{widest_entry, widest_part};

use crate::wide_exprs::widest_expr;
use crate::wide_patterns::widest_pattern;
use crate::wide_types::widest_type;
use cg_surface::Item;

// The most parts that one written thing has.
const PARTS_LIMIT: usize = 64;

/// Whether one written type, tuple or record of the program has more parts than the limit (docs/LANGUAGE.md, "Limits"). It
/// takes no memory.
pub fn is_too_wide(items: &[Item]) -> bool
    ensures { IsTrue result ↔ (parts_limit < widest_part (map entry_of items.now)) }
{
    let mut most = 0;
    for item in items {
        most = most.max(widest_item(item));
    }
    most > PARTS_LIMIT
}

// The most parts of one written thing in an item.
fn widest_item(item: &Item) -> usize
    ensures { result ≡ widest_entry (entry_of item.now) }
{
    match item {
        Item::Synonym { body, .. } => widest_type(body),
        Item::Abstract { .. } => 0,
        Item::Signature { ty, .. } => widest_type(ty),
        Item::Define { param, body, .. } => widest_pattern(param).max(widest_expr(body)),
    }
}
