// The search for all instances of a source.
ghost use Rattle.std.specs.Prelude.{◌≡◌, []};
ghost use Rattle.cg_inst.specs.Founds.{Finds, FindsThem, found_in};
ghost use Rattle.cg_inst.specs.Judged.{core_in, functions_in};

use crate::fault::InstFault;
use crate::found::Found;
use cg_base::Limit;
use cg_typing::Checked;
use std::alloc::Global;

// The most instances that there may be.
const MOST: usize = 4096;

/// All instances of a checked source, in the order of its list (docs/LANGUAGE.md, "Instances"). Limit where there are more than 4,096.
pub(crate) fn find_instances(alloc: Global, checked: &Checked) -> Result<Found, InstFault>
    ensures { FindsThem (functions_in checked.now) (core_in checked.now) result }
{
    let mut found = Found::new(alloc);
    find_into(alloc, checked, &mut found)?;
    Ok(found)
}

fn find_into(alloc: Global, checked: &Checked, found: &mut Found) -> Result<(), InstFault>
    requires { found_in found.old ≡ [] }
    ensures { Finds (functions_in checked.now) (core_in checked.now) found.new result }
{
    found.enter_front(alloc, checked.kernel().funs.as_slice())?;
    for at in 0..MOST {
        if at >= found.len() {
            return Ok(());
        }
        found.go_through_entry(alloc, checked, at)?;
    }
    if found.len() > MOST {
        return Err(InstFault::Limit(Limit::Instances));
    }
    Ok(())
}
