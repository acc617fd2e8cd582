// What holds of all heap files.
ghost use Rattle.cg_heaptext_lexer.specs.Laws.{OneStand};

/// Behind a cursor stands at most one token.
pub fn one_stand()
    ensures { OneStand }
{}
