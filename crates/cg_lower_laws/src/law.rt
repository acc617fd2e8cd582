// The laws of lowering.
ghost use Rattle.cg_lower_def.specs.Iterated.{IteratorsRun};
ghost use Rattle.cg_lower_def.specs.Printables.{LoweringIsPrintable};
ghost use Rattle.cg_lower_def.specs.Simulated.{DispatchIsSimulated, LibraryIsSimulated, LoweringSimulates};
ghost use Rattle.cg_lower_def.specs.Structs.{CoveredAreDeclared};

/// The C of a list of instances simulates the update semantics: where an instance with a body gives a result at cost k on a heap, its C
/// function ends within 32k + 32 steps, with the same scalars, heap, and addresses of the cells that were made and freed.
pub fn lowering_simulates()
    ensures { LoweringSimulates }
{}

/// So does the C of an instance of the library, of an iterator with all its turns: a result at cost k comes within 32k + 32 steps.
pub fn library_is_simulated()
    ensures { LibraryIsSimulated }
{}

/// And so does the function of an arrow type of calls, on the number of an instance of just that type and its argument: it gives what the
/// function of that instance gives.
pub fn dispatch_is_simulated()
    ensures { DispatchIsSimulated }
{}

/// The C function of an iterator, in every program in which it is the first of its name and which declares the structs of its types, does what
/// the library says, whatever the function that it calls does: it calls this once a turn, in the order of the indices, each turn going on from
/// what the one before it gave, and takes at most 24 steps a turn and 24 beside those and beside the steps of what it calls.
pub fn iterators_run()
    ensures { IteratorsRun }
{}

/// The C of a list of instances can be printed, where no body is deeper than 2,048 and its structs can.
pub fn lowering_is_printable()
    ensures { LoweringIsPrintable }
{}

/// The structs of a table of types, of which each stands behind those that are its parts, are declared as the types say.
pub fn covered_are_declared()
    ensures { CoveredAreDeclared }
{}
