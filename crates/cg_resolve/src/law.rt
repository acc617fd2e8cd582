// The law of what is answered.
ghost use Rattle.cg_resolve.specs.Laws.{OneAnswer};

/// A program has one answer: of two that are right, in neither of which memory is wanting, both are kernels that stand for the same
/// functions, or the same fault at the same place, or the same limit.
pub fn one_answer()
    ensures { OneAnswer }
{}
