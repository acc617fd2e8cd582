// The laws of what bytes spell, and of what is answered.
ghost use Rattle.cg_parser.specs.Laws.{OneProgram, OneAnswer};

/// Bytes spell at most one program.
pub fn one_program()
    ensures { OneProgram }
{}

/// Bytes have one answer: of two that are right, in neither of which memory is wanting, both are the same program, or the
/// same fault at the same place.
pub fn one_answer()
    ensures { OneAnswer }
{}
