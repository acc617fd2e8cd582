//! The laws of the readers of types, each the contract of a function with nothing in it: docs/LANGUAGE.md, "Types".
ghost use Rattle.cg_parser_types.specs.Laws.{WholeTypesAreReadExactly, TypesAreReadExactly};

/// The reader of whole types, run from its beginning, gives a type exactly where the tokens spell it, and is open exactly where
/// the tokens of some type begin with those that it has read.
pub fn whole_types_are_read_exactly()
    ensures { WholeTypesAreReadExactly }
{}

/// `TypeReader`, run from its beginning, gives a type exactly where the tokens spell it and it is no deeper than the limit; it
/// says `TooDeep` exactly where they spell a deeper one, and is open exactly where the tokens of some type begin with those that
/// it has read.
pub fn types_are_read_exactly()
    ensures { TypesAreReadExactly }
{}
