// The laws of the C of sources, and of their entries.
ghost use Rattle.cg_driver_laws.specs.Laws.{EntriesAreSound, EntriesRun, FunctionsStand, LinksExist, NoneAreLinked, SourcesArePrograms, SourcesAreRefined, SourcesPrint};

/// A function without type variables has an instance in the list of a source.
pub fn functions_stand()
    ensures { FunctionsStand }
{}

/// The C program of the instances of a source can be printed, where no body is deeper than 2,048.
pub fn sources_print()
    ensures { SourcesPrint }
{}

/// The instances of a source make a program of the update semantics over any table, where the abstract functions that it knows are linked.
pub fn sources_are_programs()
    ensures { SourcesArePrograms }
{}

/// The abstract functions of any list of instances can be linked, whatever a table knows: no two instances have one C name.
pub fn links_exist()
    ensures { LinksExist }
{}

/// No abstract function has to be linked, where the table knows none.
pub fn none_are_linked()
    ensures { NoneAreLinked }
{}

/// Over any lawful table, evaluation of a function without type variables that reaches only such abstract functions as the table knows is never
/// stuck, on an argument that fits and has in it no functions but what the table's abstract types hold.
pub fn entries_are_sound()
    ensures { EntriesAreSound }
{}

/// Over any lawful table: where evaluation of a function without type variables that has a body and reaches only such abstract functions as the
/// table knows gives a value at cost k, the C function of its instance, with those abstract functions linked by its names, ends within 32k + 32
/// steps with scalars that represent that value, from any heap that represents the argument over whatever functions and abstract types and has no
/// cell above its highest address: each cell that could be written is written by what it gives or freed, once, none is leaked, and all others are
/// as they were.
pub fn entries_run()
    ensures { EntriesRun }
{}

/// Over any lawful table: where evaluation of an instance that reaches only abstract functions that the table knows gives a value at cost k, on a
/// value in which all functions do so, the C function of this instance, with those abstract functions linked by its names, from any heap that
/// represents the argument, ends within 32k + 32 steps with scalars that represent that value: each cell that could be written is written by
/// what it gives or freed, once, none is leaked, and all others are as they were.
pub fn sources_are_refined()
    ensures { SourcesAreRefined }
{}
