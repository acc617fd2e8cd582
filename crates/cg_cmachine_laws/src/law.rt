// The laws of runs of programs of the C subset.
ghost use Rattle.cg_cmachine_laws.specs.Laws.{NamesDoNotMatter, OrderDoesNotMatter};

/// What is run doesn't hang on the names of parameters and locals.
pub fn names_do_not_matter()
    ensures { NamesDoNotMatter }
{}

/// What is run doesn't hang on the order of functions, but for which is the first of a name.
pub fn order_does_not_matter()
    ensures { OrderDoesNotMatter }
{}
