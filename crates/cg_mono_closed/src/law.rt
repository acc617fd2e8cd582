// What types for type variables change nothing of.
ghost use Rattle.cg_mono_closed.specs.Closed.{ClosedCoresStay};

/// Types for type variables change nothing of a core in which none stands.
pub fn closed_cores_stay()
    ensures { ClosedCoresStay }
{}
