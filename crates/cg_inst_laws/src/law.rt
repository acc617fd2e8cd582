// The laws of lists of instances.
ghost use Rattle.cg_inst_laws.specs.Laws.{InstancesAreApart, InstancesAreDerived, InstancesAreGood, InstancesAreTotal, ListIsOne};

/// A checked source has one list of instances at most.
pub fn list_is_one()
    ensures { ListIsOne }
{}

/// No instance stands in it twice.
pub fn instances_are_apart()
    ensures { InstancesAreApart }
{}

/// Each instance has as many types as its function takes, without type variables, and they are what it asks.
pub fn instances_are_good()
    ensures { InstancesAreGood }
{}

/// The type of each is an arrow, and its body, with its types for the type variables, is derived at that type and mentions only instances of
/// the list.
pub fn instances_are_derived()
    ensures { InstancesAreDerived }
{}

/// No instance mentions itself through bodies.
pub fn instances_are_total()
    ensures { InstancesAreTotal }
{}
