// Evaluation over the copies of instances.
ghost use Rattle.cg_mono_laws.specs.Laws.{EvaluationIsKept};

/// A call of an instance of a source's list, on a value that fits what it takes, gives over the copies what it gives over the source, at the
/// same cost, and the other way round. What it gives fits its result's type, where functions are instances of the list.
pub fn evaluation_is_kept()
    ensures { EvaluationIsKept }
{}
