// Types of values, and parts of values.
#![tactic(auto, using(crate::proofs::Groups::group_steps))]

ghost use Rattle.std.specs.Prelude.{◌≡◌};
ghost use Rattle.cg_cmachine_def.specs.Layouts.{same_layout, size};
ghost use Rattle.cg_cmachine_layout.specs.Kinds.{layout_of, shape_layout};

use crate::shape::Shape;
use cg_base::{Name, Word};

impl<'a> Shape<'a> {
    /// How many slots it has.
    pub fn size(self) -> u32
        ensures { result ≡ size (shape_layout self.entry) }
    {
        self.size
    }

    /// Whether it is the other.
    pub fn is(self, other: Shape<'_>) -> bool
        ensures { result ≡ same_layout (shape_layout self.entry) (shape_layout other.entry) }
    {
        self.name.bytes() == other.name.bytes() && self.size == other.size
    }
}

/// A type of C.
#[derive(Clone, Copy)]
pub enum Kind<'a> {
    Word(Word),
    Pointer(&'a Name),
    Struct(Shape<'a>),
}

impl<'a> Kind<'a> {
    /// How many slots a value of the type has.
    pub fn size(self) -> u32
        ensures { result ≡ size (layout_of self.entry) }
    {
        match self {
            Kind::Word(_) | Kind::Pointer(_) => 1,
            Kind::Struct(shape) => shape.size(),
        }
    }
}

/// A part of a value: how many slots stand before it, and its type.
#[derive(Clone, Copy)]
pub struct Part<'a> {
    pub start: u32,
    pub kind: Kind<'a>,
}
