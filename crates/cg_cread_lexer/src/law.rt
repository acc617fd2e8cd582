// What holds of all C texts.
ghost use Rattle.cg_cread_lexer.specs.Laws.{OneStand};

/// Behind a cursor stands at most one token, at one place.
pub fn one_stand()
    ensures { OneStand }
{}
