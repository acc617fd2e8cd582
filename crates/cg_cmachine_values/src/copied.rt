// Values of structs.
ghost use Rattle.std.specs.Prelude.{◌≡◌, length};
ghost use Rattle.cg_cmachine_layout.specs.Kinds.{shape_layout};
ghost use Rattle.cg_cmachine_def.specs.Layouts.{size};

use cg_cmachine_layout::Shape;
use cg_heap::Scalar;

/// A value of a struct: as many slots as it has.
#[derive(Drop)]
pub struct Copied<'a> {
    pub(crate) shape: Shape<'a>,
    pub(crate) slots: Vec<Scalar>,
    ghost sized: { length slots.items ≡ size (shape_layout shape) },
}
