// The laws of C texts.
ghost use Rattle.cg_ctree.specs.Laws.{OneToken, OneDivision};

/// Behind a place of a text stands at most one token.
pub fn one_token()
    ensures { OneToken }
{}

/// A text is divided into one list of tokens at most.
pub fn one_division()
    ensures { OneDivision }
{}
