// Where names stand among others.
#![tactic(auto)]

ghost use Rattle.std.specs.Prelude.{◌≡◌, OnOk};
ghost use Rattle.cg_cmachine_resolve.specs.Indexes.{HasJoined, place};

use cg_base::{Memory, Name};
use std::collections::BTreeMap;

/// Names, each with the place of the first of it among some.
pub(crate) type Names<'a> = BTreeMap<&'a [u8], usize>;

/// A name joins those of a table, behind so many others.
pub(crate) fn add_name<'a>(table: &mut Names<'a>, name: &'a [u8], at: usize) -> Result<(), Memory>
    ensures { OnOk result (HasJoined name.now at table.old table.new) }
{
    if table.contains_key(name) {
        return Ok(());
    }
    table.insert(name, at)?;
    Ok(())
}

/// The place of the first of a name.
pub(crate) fn place_of(table: &Names<'_>, name: &Name) -> Option<usize>
    ensures { result ≡ place table.now name.now }
{
    table.get(name.bytes()).copied()
}
