//! The laws of the readers of patterns, each the contract of a function with nothing in it: docs/LANGUAGE.md, "Patterns".
ghost use Rattle.cg_parser_patterns.specs.Laws.{WholePatternsAreReadExactly, PatternsAreReadExactly};

/// The reader of whole patterns, run from its beginning, gives a pattern exactly where the tokens spell it, and is open exactly
/// where the tokens of some pattern begin with those that it has read.
pub fn whole_patterns_are_read_exactly()
    ensures { WholePatternsAreReadExactly }
{}

/// `PatternReader`, run from its beginning, gives a pattern exactly where the tokens spell it and it is no deeper than the limit;
/// it says `TooDeep` exactly where they spell a deeper one, and is open exactly where the tokens of some pattern begin with those
/// that it has read.
pub fn patterns_are_read_exactly()
    ensures { PatternsAreReadExactly }
{}
