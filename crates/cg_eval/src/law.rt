// The laws of evaluation.
ghost use Rattle.cg_eval.specs.Laws.{MoreBudget, FuelIsFree};

/// A result costs no more than its budget, and every budget from that cost on gives the same at the same cost.
pub fn more_budget()
    ensures { MoreBudget }
{}

/// Fuel doesn't matter: from the cost on it gives the same, and of any amount nothing else.
pub fn fuel_is_free()
    ensures { FuelIsFree }
{}
