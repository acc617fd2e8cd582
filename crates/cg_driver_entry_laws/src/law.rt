// The law of the types of entries.
ghost use Rattle.cg_driver_entry_laws.specs.Laws.{EntriesHaveTypes};

use cg_graphs::mentions_stand_before;

/// A function without type variables whose type is first order takes and gives types without type variables, functions and users' abstract
/// types, of at most 1,024 nodes; what it takes is lawful.
pub fn entries_have_types()
    ensures { EntriesHaveTypes }
{
    mentions_stand_before();
}
