// Structs of programs.
ghost use Rattle.std.specs.Prelude.{◌≡◌};
ghost use Rattle.cg_cmachine_def.specs.Layouts.{layout, size as slots_of};
ghost use Rattle.cg_ctree.specs.declared.tree.CTy.TheVariants as ty;

use cg_base::Name;
use cg_ctree::CStruct;

/// A struct of a program, by its name, with the number of its slots. Contracts see its layout (`shape_layout`).
#[derive(Clone, Copy)]
pub struct Shape<'a> {
    pub(crate) name: &'a Name,
    pub(crate) size: u32,
    pub(crate) structs: &'a [CStruct],
    ghost sized: { size ≡ slots_of (layout structs.now (ty.Struct name.now)) },
}
