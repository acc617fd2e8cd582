// Type soundness of evaluation.
ghost use Rattle.cg_eval_laws.specs.Laws.{CallsAreSound, FunctionsFit};

/// A call in a checked source is never stuck, and its result fits, where the function and the argument fit and reach only abstract
/// functions that the table knows.
pub fn calls_are_sound()
    ensures { CallsAreSound }
{}

/// A function of a checked source without type variables is a value of its type.
pub fn functions_fit()
    ensures { FunctionsFit }
{}
