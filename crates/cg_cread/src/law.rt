// The law of what C texts spell.
ghost use Rattle.cg_cread.specs.Laws.{OneProgram};

/// A C text spells at most one program.
pub fn one_program()
    ensures { OneProgram }
{}
