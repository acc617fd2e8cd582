// What holds of all sources.
ghost use Rattle.cg_lexer.specs.Laws.{OneToken, OneDivision, OneFault};

/// At a place of a source stands at most one token.
pub fn one_token()
    ensures { OneToken }
{}

/// A source is one list of tokens at most.
pub fn one_division()
    ensures { OneDivision }
{}

/// At a place of a source stands at most one fault, and then neither a token nor the end: so a fault is answered for ever.
pub fn one_fault()
    ensures { OneFault }
{}
