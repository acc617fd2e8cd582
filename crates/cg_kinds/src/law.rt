//! Laws of bang, kinds, substitution and shapes, each the contract of a function with nothing in it.
ghost use Rattle.cg_kinds.specs.Laws.{BangIsIdempotent, BangedIsDroppedAndShared, SubstKeepsKinds, ShapeIsIdempotent, BangedHasItsShape};

/// To observe twice is to observe once.
pub fn bang_twice()
    ensures { BangIsIdempotent }
{}

/// What is observed may be dropped and shared.
pub fn bang_gives_kinds()
    ensures { BangedIsDroppedAndShared }
{}

/// An argument that has the kinds of its variable can stand for the variable.
pub fn subst_keeps_kinds()
    ensures { SubstKeepsKinds }
{}

/// The shape of a shape is the shape.
pub fn shape_twice()
    ensures { ShapeIsIdempotent }
{}

/// What is observed has the shape that it had, in a type without type variables.
pub fn shape_of_bang()
    ensures { BangedHasItsShape }
{}
