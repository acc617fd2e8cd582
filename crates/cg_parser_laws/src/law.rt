//! The laws, each the contract of a function with nothing in it.
ghost use Rattle.cg_parser_laws.specs.Laws.{SpelledFaultsAreOrdered, SpelledIsNamed, SpelledIsShaped, SpelledTakesGrow};

/// A program that a text spells is shaped.
pub fn spelled_is_shaped()
    ensures { SpelledIsShaped }
{}

/// The faults of names of a program that a text spells stand in order: by place, and at one place by the number of the rule
/// (docs/LANGUAGE.md, "Names").
pub fn spelled_faults_are_ordered()
    ensures { SpelledFaultsAreOrdered }
{}

/// The places of the fields that a program that a text spells takes and its types don't have grow (docs/LANGUAGE.md, "Names").
pub fn spelled_takes_grow()
    ensures { SpelledTakesGrow }
{}

/// The functions of a program that a text spells have names that begin with a small letter or `_` and go on as names do.
pub fn spelled_is_named()
    ensures { SpelledIsNamed }
{}
