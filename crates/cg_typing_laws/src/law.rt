// The laws of substitution, of bang and of weakening, and cases of them.
ghost use Rattle.cg_typing_laws.specs.Cases.{Substituted, Weakened};
ghost use Rattle.cg_typing_laws.specs.Laws.{SubstitutionKeepsDerivations, CheckedArgumentsAreInstance, InstancesAreDerived, SubstitutionsCompose, BangIsSubstituted, PartsAreObserved, DerivationsAreWeakened, EntriesAreInserted};

/// What is derived with type variables is derived, by the same derivation, with type arguments in their place that have the
/// variables' kinds and are written with arrays of words alone.
pub fn substitution_keeps_derivations()
    ensures { SubstitutionKeepsDerivations }
{}

/// Type arguments that are what a function asks of them may stand for its type variables.
pub fn checked_arguments_are_instance()
    ensures { CheckedArgumentsAreInstance }
{}

/// A function's body that is derived is derived at such type arguments, by the same derivation.
pub fn instances_are_derived()
    ensures { InstancesAreDerived }
{}

/// To put arguments in the place of type variables twice is to do it once, with the variables of the arguments replaced.
pub fn substitutions_compose()
    ensures { SubstitutionsCompose }
{}

/// A type is observed before or after its variables are replaced.
pub fn bang_is_substituted()
    ensures { BangIsSubstituted }
{}

/// The parts of an observed type have the same names, are taken where they were, and are observed.
pub fn parts_are_observed()
    ensures { PartsAreObserved }
{}

/// What is derived in a context is derived in one with more entries that may be dropped.
pub fn derivations_are_weakened()
    ensures { DerivationsAreWeakened }
{}

/// What is derived in a context is derived in one with an entry more at any position, gone or such that it may be dropped, with
/// the variables renumbered.
pub fn entries_are_inserted()
    ensures { EntriesAreInserted }
{}

/// A member and an annotation at a type variable and at arguments, of which one may not be shared and one is an array of no word.
pub fn substitution_cases()
    ensures { Substituted }
{}

/// Beside a new entry that may be dropped a derivation has another mark, and behind it a variable another position.
pub fn weakening_cases()
    ensures { Weakened }
{}
