// Calls: of instances, of the library, of what iterators call, and of abstract functions that a table knows.
ghost use Rattle.cg_refine_laws.specs.Laws.{InstancesAreRefined, IteratorsAreRefined, KnownFunctionsAreRefined, LibraryIsRefined};

/// Where evaluation of an instance over the copies of a list gives a value, the update semantics gives scalars that represent it, at the
/// same cost, on any heap that represents the argument: by a step from what the argument reaches to what the result reaches (the paper's
/// refinement, section 3).
pub fn instances_are_refined()
    ensures { InstancesAreRefined }
{}

/// So do the functions of the library that take no function.
pub fn library_is_refined()
    ensures { LibraryIsRefined }
{}

/// So do the iterators, where what they call does.
pub fn iterators_are_refined()
    ensures { IteratorsAreRefined }
{}

/// So do abstract functions that a lawful table knows.
pub fn known_functions_are_refined()
    ensures { KnownFunctionsAreRefined }
{}
