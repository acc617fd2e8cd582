// The readers of the parts of an expression.
ghost use Rattle.std.specs.Prelude.{◌≡◌};
ghost use Rattle.cg_parser_exprs_def.specs.Held.{types, patterns};
ghost use Rattle.cg_parser_exprs_frames.specs.Stack.{types_at, patterns_at};

use cg_parser_patterns::PatternReader;
use cg_parser_types::TypeReader;
use std::alloc::Global;

/// The readers of the types and of the patterns in an expression.
#[derive(Drop)]
pub struct Parts {
    pub types: TypeReader,
    pub patterns: PatternReader,
}

impl Parts {
    /// Each where it begins.
    pub fn new(alloc: Global) -> Parts
        ensures types { types_at result ≡ types.begin }
        ensures patterns { patterns_at result ≡ patterns.begin }
    {
        Parts {
            types: TypeReader::new(alloc),
            patterns: PatternReader::new(alloc),
        }
    }
}
