// How the patterns are built that the reader of expressions reads by itself.
ghost use Rattle.std.specs.Prelude.{◌≡◌};
ghost use Rattle.cg_parser_build.specs.Bounded.{bounded};
ghost use Rattle.cg_parser_build.specs.Views.{pattern_view};

use cg_base::{Name, Place};
use cg_parser_patterns::BuiltPattern;
use cg_surface::{Pat, PatForm};

/// `()`, the pattern of a constructor alone: docs/LANGUAGE.md, "Patterns".
pub fn pattern_unit(place: Place) -> Option<BuiltPattern>
    ensures { pattern_view result ≡ bounded.pattern_unit place }
{
    let form = PatForm::Unit;
    Some(BuiltPattern {
        tree: Pat { place, form },
        depth: 1,
    })
}

/// A name: docs/LANGUAGE.md, "Patterns".
pub fn pattern_name(place: Place, name: Name) -> Option<BuiltPattern>
    ensures { pattern_view result ≡ bounded.pattern_name place name }
{
    let form = PatForm::Name(name);
    Some(BuiltPattern {
        tree: Pat { place, form },
        depth: 1,
    })
}

/// `_`: docs/LANGUAGE.md, "Patterns".
pub fn pattern_any(place: Place) -> Option<BuiltPattern>
    ensures { pattern_view result ≡ bounded.pattern_any place }
{
    let form = PatForm::Any;
    Some(BuiltPattern {
        tree: Pat { place, form },
        depth: 1,
    })
}
