// What the functions of the generated source give and cost, and what its heap file holds.
ghost use Rattle.cg_gen_run_laws.specs.Laws.{EvaluationGives, FirstCosts, HeapIsHeld, StepsAreEnough};

/// The last of so many functions gives the cell with its number, at its cost (docs/LANGUAGE.md, "Generator").
pub fn evaluation_gives()
    ensures { EvaluationGives }
{}

/// The first function costs 10 (docs/LANGUAGE.md, "Generator").
pub fn first_costs()
    ensures { FirstCosts }
{}

/// The last function costs less than the steps of a run where none are given (docs/LANGUAGE.md, "Generator").
pub fn steps_are_enough()
    ensures { StepsAreEnough }
{}

/// The heap file holds the cell, at address 1 (docs/LANGUAGE.md, "Generator").
pub fn heap_is_held()
    ensures { HeapIsHeld }
{}
