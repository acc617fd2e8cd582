// The laws that join the faults in their own words and the events.
ghost use Rattle.cg_faults_laws.specs.Laws.{BoundVariablesStandBelow, KernelsAreAcceptedOrAtFault, TouchesAgree, TypesAreWithin, UsesAgree};

/// Of a lawful kernel: where no event fails, it is accepted, with any splits, no type passes the limit, and nothing is at fault in the
/// definition's own words; and else the first event that fails is the one fault that these name, its rule and its place.
pub fn kernels_are_accepted_or_at_fault()
    ensures { KernelsAreAcceptedOrAtFault }
{}

/// Of a lawful kernel that is accepted: no type of a node passes the limit, wherever the node stands, exactly where no event of the limit
/// fails.
pub fn types_are_within()
    ensures { TypesAreWithin }
{}

/// A variable that is in scope and not observed is used in a term, by the events' test, exactly where a use of it stands there or below.
pub fn uses_agree()
    ensures { UsesAgree }
{}

/// The same of touches: uses, and sightings by a `let!`.
pub fn touches_agree()
    ensures { TouchesAgree }
{}

/// What is bound at a node is touched only below it.
pub fn bound_variables_stand_below()
    ensures { BoundVariablesStandBelow }
{}
