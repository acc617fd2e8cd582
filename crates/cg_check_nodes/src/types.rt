// Types that a test may refuse, and that are kept while something may fail.
ghost use Rattle.cg_base.specs.Types.{Tau, type_of};
ghost use Rattle.cg_check_def.specs.Pass.{Out};
ghost use Rattle.cg_check_context.specs.View.{Agrees};
ghost use Rattle.cg_check_pieces.specs.Boxed.{in_box};

use cg_base::Ty;
use cg_check_context::Stop;
use std::alloc::Global;

/// A type in a box, which is kept while something may fail, where no test refuses it.
pub fn boxed_tested(alloc: Global, made: Result<Ty, Stop>) -> Result<Box<Ty>, Stop>
    ensures { (answer : Out Tau) → Agrees type_of made answer → Agrees in_box result answer }
{
    match made {
        Ok(ty) => Ok(Box::new(alloc, ty)?),
        Err(stop) => Err(stop),
    }
}
