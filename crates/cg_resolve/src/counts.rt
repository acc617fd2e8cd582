// How many functions a program has.
ghost use Rattle.std.specs.Prelude.{◌≡◌, ◌≤◌, [], List, map, length};
ghost use Rattle.std.specs.List.{cons_option};
ghost use Rattle.cg_surface.specs.Programs.{Entry, entry_of};
ghost use Rattle.cg_resolve_def.specs.Desugar.{functions_of, function_of_entry};
ghost use Rattle.cg_resolve.specs.Answers.{CountsSay};

use crate::fault::Fault;
use cg_base::Limit;
use cg_resolve_written::is_too_wide;
use cg_surface::Item;

// No program has more functions.
const FUNCTIONS_LIMIT: usize = 4096;

/// The limit on functions, and then that on parts of one written thing, where one is passed (docs/LANGUAGE.md, "Limits"). It takes no
/// memory.
pub fn check_counts(items: &[Item]) -> Result<(), Fault>
    ensures { CountsSay (map entry_of items.now) result }
{
    if signatures(items) > FUNCTIONS_LIMIT {
        return Err(Fault::Limit(Limit::Functions));
    }
    if is_too_wide(items) {
        return Err(Fault::Limit(Limit::Fields));
    }
    Ok(())
}

// How many signatures there are.
fn signatures(items: &[Item]) -> usize
    ensures { result ≡ length (functions_of (map entry_of items.now)) }
{
    let mut count = 0;
    for item in items {
        count += one_if_signature(item);
    }
    count
}

// One for a signature, and none for another item.
fn one_if_signature(item: &Item) -> usize
    ensures count { (entries : List Entry) → result ≡ length (cons_option (function_of_entry entries (entry_of item.now)) []) }
    ensures small { result ≤ 1 }
{
    match item {
        Item::Signature { .. } => 1,
        Item::Synonym { .. } => 0,
        Item::Abstract { .. } => 0,
        Item::Define { .. } => 0,
    }
}
