// Where structs, and the members of each, are found by their names.
ghost use Rattle.std.specs.Prelude.{◌≡◌, ◌++◌, [], ◌∷◌, ℕ, List, length, map, IfOk, OnOk};
ghost use Rattle.cg_cmachine_layout.specs.Tables.{Indexes, place};

use cg_base::{Memory, Name};
use cg_ctree::{CDecl, CStruct};
use std::alloc::Global;
use std::collections::BTreeMap;

/// Names, each with the place of the first of it among some.
pub(crate) type Names<'a> = BTreeMap<&'a [u8], u32>;

/// The place of the first of a name.
pub(crate) fn find(names: &Names<'_>, name: &Name) -> Option<u32>
    ensures { result ≡ place names.now name.now }
{
    names.get(name.bytes()).copied()
}

/// The names of structs.
pub(crate) fn index_structs<'a>(alloc: Global, structs: &'a [CStruct]) -> Result<Names<'a>, Memory>
    ensures { IfOk result (Indexes (map (λ s. s.name) structs.now)) }
{
    let mut names = BTreeMap::new(alloc);
    for (at, s) in structs.iter().enumerate() {
        add(&mut names, s.name.bytes(), at)?;
    }
    Ok(names)
}

/// The names of members.
pub(crate) fn index_members<'a>(alloc: Global, members: &'a [CDecl]) -> Result<Names<'a>, Memory>
    ensures { IfOk result (Indexes (map (λ d. d.name) members.now)) }
{
    let mut names = BTreeMap::new(alloc);
    for (at, member) in members.iter().enumerate() {
        add(&mut names, member.name.bytes(), at)?;
    }
    Ok(names)
}

/// Adds the name at a place, where it doesn't stand at an earlier one.
fn add<'a>(names: &mut Names<'a>, name: &'a [u8], at: usize) -> Result<(), Memory>
    ensures { OnOk result ((before : List (List ℕ)) → Indexes before names.old → at ≡ length before → Indexes (before ++ name.now ∷ []) names.new) }
{
    let Ok(place) = u32::try_from(at) else {
        return Err(Memory);
    };
    if !names.contains_key(name) {
        names.insert(name, place)?;
    }
    Ok(())
}
