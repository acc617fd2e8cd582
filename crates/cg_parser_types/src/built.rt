// Types, and lists of them, up to a depth.
ghost use Rattle.std.specs.Prelude.{◌≡◌, ◌≤◌, map};
ghost use Rattle.cg_surface.specs.Limits.{depth_limit};
ghost use Rattle.cg_surface.specs.Written.{written_of, field_of, alt_of, depth_of, types_depth, fields_depth, alts_depth, to_types, to_fields, to_alts};

use cg_base::Items;
use cg_surface::{SAlt, SPart, STy};

/// The greatest depth of a type that is built: docs/LANGUAGE.md, "Limits".
pub(crate) const MOST: u32 = 1024;

/// A written type that is no deeper than the language allows, with its depth: docs/LANGUAGE.md, "Types" and "Limits".
#[derive(Drop)]
pub struct BuiltType {
    pub tree: STy,
    pub depth: u32,
    ghost depth_is: { depth ≡ depth_of (written_of tree) },
    ghost within: { depth ≤ depth_limit },
}

/// Types, none of which is too deep, with the greatest of their depths.
#[derive(Drop)]
pub(crate) struct BuiltTypes {
    pub(crate) items: Items<STy>,
    pub(crate) depth: u32,
    ghost depth_is: { depth ≡ types_depth (to_types (map written_of items)) },
    ghost within: { depth ≤ depth_limit },
}

/// Fields, likewise.
#[derive(Drop)]
pub(crate) struct BuiltFields {
    pub(crate) items: Items<SPart>,
    pub(crate) depth: u32,
    ghost depth_is: { depth ≡ fields_depth (to_fields (map field_of items)) },
    ghost within: { depth ≤ depth_limit },
}

/// Alternatives, likewise.
#[derive(Drop)]
pub(crate) struct BuiltAlts {
    pub(crate) items: Items<SAlt>,
    pub(crate) depth: u32,
    ghost depth_is: { depth ≡ alts_depth (to_alts (map alt_of items)) },
    ghost within: { depth ≤ depth_limit },
}
