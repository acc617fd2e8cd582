// The laws of the reader of expressions, each the contract of a function with nothing in it.
ghost use Rattle.cg_parser_exprs_laws.specs.Laws.{ReadsExactly, OpenExactly, KeepsToDepth, StopsAtWrongBars};

/// An expression is read exactly where the tokens spell it: docs/LANGUAGE.md, "Expressions" and "Bars".
pub fn reads_exactly()
    ensures { ReadsExactly }
{}

/// The reader is open exactly where some expression begins with the tokens read: docs/LANGUAGE.md, "Expressions".
pub fn open_exactly()
    ensures { OpenExactly }
{}

/// `ExprReader` reads what is read over whole trees, where it is within the depth: docs/LANGUAGE.md, "Limits".
pub fn keeps_to_depth()
    ensures { KeepsToDepth }
{}

/// `ExprReader` stops at a bar at a wrong column exactly where one stands: docs/LANGUAGE.md, "Bars".
pub fn stops_at_wrong_bars()
    ensures { StopsAtWrongBars }
{}
