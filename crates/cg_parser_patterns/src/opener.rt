// What opens the fields of a pattern.
ghost use Rattle.std.specs.Prelude.{◌≡◌};
ghost use Rattle.cg_parser_patterns.specs.Machine as machine;
ghost use Rattle.cg_parser_patterns.specs.Bounded.{bounded};
ghost use Rattle.cg_parser_patterns.specs.Stack.{opener_of};
ghost use Rattle.cg_parser_patterns.specs.Views.{view_of, fields_of};

use crate::build;
use crate::built::{BuiltFields, BuiltPattern};
use cg_base::{Name, Place};

/// What opened fields: `#{`, or a name and `{`.
#[derive(Drop)]
pub(crate) enum Opener {
    Unboxed(Place),
    Taken(Place, Name),
}

/// The pattern that is made of fields.
pub(crate) fn opened(opener: Opener, fields: Option<BuiltFields>) -> Option<BuiltPattern>
    ensures { view_of result ≡ machine.opened bounded (opener_of opener) (fields_of fields) }
{
    match opener {
        Opener::Unboxed(place) => build::fields(place, fields),
        Opener::Taken(place, name) => build::take(place, name, fields),
    }
}
