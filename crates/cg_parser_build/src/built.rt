// Expressions, and lists of them, up to a depth.
ghost use Rattle.std.specs.Prelude.{◌≡◌, ◌≤◌, map};
ghost use Rattle.cg_surface.specs.Written.{written_of, to_types, types_depth};
ghost use Rattle.cg_surface.specs.Exprs.{expr_of, field_of, bind_of, alt_of, depth_of, exprs_depth, fields_depth, binds_depth, alts_depth, to_exprs, to_fields, to_binds, to_alts};
ghost use Rattle.cg_parser_build.specs.Bounded.{depth_limit};

use cg_base::Items;
use cg_surface::{Alt, Bind, FExpr, SExpr, STy};

/// The greatest depth of an expression that is built: docs/LANGUAGE.md, "Limits".
pub(crate) const DEPTH_LIMIT: u32 = 1024;

/// An expression that is no deeper than the language allows, with its depth: docs/LANGUAGE.md, "Expressions" and "Limits".
#[derive(Drop)]
pub struct BuiltExpr {
    pub tree: SExpr,
    pub depth: u32,
    ghost depth_is: { depth ≡ depth_of (expr_of tree) },
    ghost within: { depth ≤ depth_limit },
}

/// Expressions, none of which is too deep, with the greatest of their depths: docs/LANGUAGE.md, "Limits".
#[derive(Drop)]
pub struct BuiltExprs {
    pub items: Items<SExpr>,
    pub depth: u32,
    ghost depth_is: { depth ≡ exprs_depth (to_exprs (map expr_of items)) },
    ghost within: { depth ≤ depth_limit },
}

/// Fields, likewise: docs/LANGUAGE.md, "Expressions" and "Limits".
#[derive(Drop)]
pub struct BuiltFields {
    pub items: Items<FExpr>,
    pub depth: u32,
    ghost depth_is: { depth ≡ fields_depth (to_fields (map field_of items)) },
    ghost within: { depth ≤ depth_limit },
}

/// Bindings, likewise: docs/LANGUAGE.md, "Expressions" and "Limits".
#[derive(Drop)]
pub struct BuiltBinds {
    pub items: Items<Bind>,
    pub depth: u32,
    ghost depth_is: { depth ≡ binds_depth (to_binds (map bind_of items)) },
    ghost within: { depth ≤ depth_limit },
}

/// Alternatives, likewise: docs/LANGUAGE.md, "Bars" and "Limits".
#[derive(Drop)]
pub struct BuiltAlts {
    pub items: Items<Alt>,
    pub depth: u32,
    ghost depth_is: { depth ≡ alts_depth (to_alts (map alt_of items)) },
    ghost within: { depth ≤ depth_limit },
}

/// Type arguments, likewise: docs/LANGUAGE.md, "Types" and "Limits".
#[derive(Drop)]
pub struct BuiltArgs {
    pub items: Items<STy>,
    pub depth: u32,
    ghost depth_is: { depth ≡ types_depth (to_types (map written_of items)) },
    ghost within: { depth ≤ depth_limit },
}
