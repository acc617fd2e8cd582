// The list of instances.
ghost use Rattle.std.specs.Prelude.{◌≡◌, ◌≤◌, None, Some, length, map, slice_get, MatchOption};
ghost use Rattle.cg_inst.specs.Founds.{LocatesInstance};
ghost use Rattle.cg_inst.specs.Views.{instance_of};

use crate::instance::Instance;
use cg_base::Items;
use std::marker::Model;

/// The list of instances of a source, which contracts see as the list of these. Each stands in it once.
#[derive(Drop)]
pub struct Instances {
    pub(crate) list: Items<Instance>,
}

impl Model for Instances {
    ghost use Rattle.std.specs.Prelude.{◌≤◌, List, length, map};
    ghost use Rattle.std.specs.Coded.{codes};
    ghost use Rattle.cg_inst.specs.Views.{instance_of};
    ghost use Rattle.cg_inst_types.specs.Codes.{coded_type};
    ghost use Rattle.cg_typing.specs.Instances.{Instance as OneInstance};

    ghost Value = { List OneInstance };

    ghost coded = { Prim.hlevel (codes, coded_type (Prim.hlevel codes)) };

    ghost view = { λ l. map instance_of l.list };

    ghost invariant = { λ l. length l.list ≤ 4096 };
}

impl Instances {
    /// How many there are.
    pub fn len(&self) -> usize
        ensures { result ≡ length self.now }
    {
        self.list.len()
    }

    /// The one at a place, counted from 0; None exactly where there is none.
    pub fn get(&self, at: usize) -> Option<&Instance>
        ensures { MatchOption result (slice_get self.now at ≡ None) (λ x. slice_get self.now at ≡ Some (instance_of x.now)) }
    {
        self.list.get(at)
    }

    /// All of them, in order.
    pub fn as_slice(&self) -> &[Instance]
        ensures { map instance_of result.now ≡ self.now }
    {
        self.list.as_slice()
    }

    /// The place of an instance; None exactly where it isn't in the list. It takes no memory.
    pub fn find(&self, instance: &Instance) -> Option<u32>
        ensures { LocatesInstance self.now (instance_of instance.now) result }
    {
        place_of(self.list.as_slice(), instance)
    }
}

// The place of an instance in a list of no more than 4,096.
fn place_of(list: &[Instance], instance: &Instance) -> Option<u32>
    requires { length list.now ≤ 4096 }
    ensures { LocatesInstance (map instance_of list.now) (instance_of instance.now) result }
{
    for (at, other) in list.iter().enumerate() {
        if other.same(instance) {
            return Some(at as u32);
        }
    }
    None
}
