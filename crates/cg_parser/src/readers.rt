// The readers of the parts of an item.
ghost use Rattle.std.specs.Prelude.{◌≡◌};
ghost use Rattle.cg_parser_exprs_def.specs.Held.{types, patterns};
ghost use Rattle.cg_parser_def.specs.Held.{exprs};
ghost use Rattle.cg_parser.specs.Views.{parts_of};

use cg_parser_exprs::ExprReader;
use cg_parser_patterns::PatternReader;
use cg_parser_types::TypeReader;
use std::alloc::Global;

/// The readers of the parts of an item.
pub(crate) struct Parts {
    pub(crate) types: TypeReader,
    pub(crate) patterns: PatternReader,
    pub(crate) exprs: ExprReader,
}

impl Drop for Parts {
    fn drop(self) {
        let Parts {
            types,
            patterns,
            exprs,
        } = self;
        drop(types);
        drop(patterns);
        drop(exprs);
    }
}

impl Parts {
    /// Each where it begins.
    pub(crate) fn new(alloc: Global) -> Parts
        ensures types { (parts_of result).types ≡ types.begin }
        ensures patterns { (parts_of result).patterns ≡ patterns.begin }
        ensures exprs { (parts_of result).exprs ≡ exprs.begin }
    {
        Parts {
            types: TypeReader::new(alloc),
            patterns: PatternReader::new(alloc),
            exprs: ExprReader::new(alloc),
        }
    }
}
