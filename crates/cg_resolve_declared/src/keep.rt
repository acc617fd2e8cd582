// Tables and sets of names.
ghost use Rattle.std.specs.Prelude.{◌≡◌, ◌||◌, ℕ, List, IfOk, OnOk, OnErr, not, Some, None, if◌then◌else◌};
ghost use Rattle.std.specs.BTreeMap as maps;
ghost use Rattle.std.specs.BTreeSet as sets;
ghost use Rattle.std.specs.Str.{bytes_eq};
ghost use Rattle.cg_resolve_declared.specs.Tables.{find, otherwise, has};

use cg_base::Memory;
use std::collections::{BTreeMap, BTreeSet};

/// Names that were seen.
pub type Names<'a> = BTreeSet<&'a [u8]>;

/// Keeps a value for a name, unless one is kept for it already. Want of memory is its one refusal, and leaves the table as it was.
pub fn keep_first<'a, V: Drop>(
    table: &mut BTreeMap<&'a [u8], V>,
    name: &'a [u8],
    value: V,
) -> Result<(), Memory>
    ensures kept { OnOk result ((other : List ℕ) → find table.new other
        ≡ otherwise (find table.old other) (if bytes_eq name.now other then Some value else None)) }
    ensures err { OnErr result (maps.IsUnchanged table.old table.new) }
{
    if !table.contains_key(name) {
        table.insert(name, value)?;
    }
    Ok(())
}

/// Adds a name, and answers whether it is new. Want of memory is its one refusal, and leaves the set as it was.
pub fn add<'a>(set: &mut Names<'a>, name: &'a [u8]) -> Result<bool, Memory>
    ensures added { IfOk result (λ added. added ≡ not (has set.old name.now)) }
    ensures names { OnOk result ((other : List ℕ) → has set.new other ≡ (bytes_eq name.now other || has set.old other)) }
    ensures err { OnErr result (sets.IsUnchanged set.old set.new) }
{
    Ok(set.insert(name)?)
}
