// Constructors without a payload.
#![tactic(auto, unfolding(cg_heaptext_def::specs::Reading::events, cg_base::specs::Types::to_parts))]

ghost use Rattle.std.specs.Prelude.{◌≡◌, [], ◌∷◌, ◌&&◌, ℕ, Option, not, if◌then◌else◌};
ghost use Rattle.cg_base.specs.Types.{type_of};
ghost use Rattle.cg_heaptext_def.specs.Reading.{events_bare, misfit as misfits};
ghost use Rattle.cg_heaptext_def.specs.Trees.{Cell};
ghost use Rattle.cg_heaptext_judge_steps.specs.Steps.{Fits, pieces};
ghost use Rattle.cg_value.specs.Printed.{is_unit};

use cg_base::{Part, Place, Ty};
use cg_heaptext_judge_notes::JudgeFault;

// Whether an alternative may stand without a payload; else the value at this place doesn't fit.
fn judge_bare(part: &Part, place: Place) -> Result<(), JudgeFault>
    ensures { Fits (if not part.now.taken && is_unit (type_of part.now.ty) then [] else misfits place ∷ []) result }
{
    match part.ty {
        Ty::Unit if !part.taken => Ok(()),
        _ => Err(JudgeFault::Misfit(place)),
    }
}

/// Whether a variant of these alternatives has one of this name, whose payload is unit and that isn't taken; else the value at this place
/// doesn't fit (docs/LANGUAGE.md, "Heap files").
pub fn judge_constant(parts: &[Part], name: &[u8], place: Place) -> Result<(), JudgeFault>
    ensures { (cells : ℕ → Option Cell) → Fits (events_bare cells (pieces parts.now) place name.now) result }
{
    for part in parts {
        if name == part.name.bytes() {
            return judge_bare(part, place);
        }
    }
    Err(JudgeFault::Misfit(place))
}
