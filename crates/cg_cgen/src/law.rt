// The laws of the C of operators.
ghost use Rattle.cg_cgen.specs.Meanings.{OperatorsCompute};

/// The C of each operator does what the operator does, in every program and state: where its operands can be read and are of other
/// variables than the path that is set, it takes at most 6 steps to set that path, and changes nothing else.
pub fn operators_compute()
    ensures { OperatorsCompute }
{}
