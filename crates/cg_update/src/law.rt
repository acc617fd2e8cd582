// The laws of the update semantics.
ghost use Rattle.cg_update.specs.Laws.{DepthIsFree, MoreBudget};

/// What an instance gives costs at most its budget, and every budget from that cost on gives the same at the same cost.
pub fn more_budget()
    ensures { MoreBudget }
{}

/// Calls that may be nested deeper than the budget allows give the same.
pub fn depth_is_free()
    ensures { DepthIsFree }
{}
