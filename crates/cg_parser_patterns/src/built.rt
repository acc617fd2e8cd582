// Patterns up to a depth.
ghost use Rattle.std.specs.Prelude.{◌≡◌, ◌≤◌, map};
ghost use Rattle.cg_surface.specs.Limits.{depth_limit};
ghost use Rattle.cg_surface.specs.Patterns.{pattern_of, depth_of, field_of, to_patterns, to_fields, patterns_depth, fields_depth};

use cg_base::Items;
use cg_surface::{FPat, Pat};

/// The greatest depth of a pattern that is built: docs/LANGUAGE.md, "Limits".
pub(crate) const MOST: u32 = 1024;

/// A pattern that is no deeper than 1,024, with its depth: docs/LANGUAGE.md, "Limits".
#[derive(Drop)]
pub struct BuiltPattern {
    pub tree: Pat,
    pub depth: u32,
    ghost depth_is: { depth ≡ depth_of (pattern_of tree) },
    ghost within: { depth ≤ depth_limit },
}

/// Patterns that are no deeper than `MOST`, with the depth of the deepest.
#[derive(Drop)]
pub(crate) struct BuiltPatterns {
    pub(crate) items: Items<Pat>,
    pub(crate) depth: u32,
    ghost depth_is: { depth ≡ patterns_depth (to_patterns (map pattern_of items)) },
    ghost within: { depth ≤ depth_limit },
}

/// Fields with patterns that are no deeper than `MOST`, with the depth of the deepest.
#[derive(Drop)]
pub(crate) struct BuiltFields {
    pub(crate) items: Items<FPat>,
    pub(crate) depth: u32,
    ghost depth_is: { depth ≡ fields_depth (to_fields (map field_of items)) },
    ghost within: { depth ≤ depth_limit },
}

/// What has been read of a pattern: no whole one, one that is deeper than 1,024, or a whole one (docs/LANGUAGE.md,
/// "Patterns" and "Limits").
#[derive(Drop)]
pub enum PatternEnd {
    Unfinished,
    TooDeep,
    Whole(BuiltPattern),
}
