// Terms without calls, and what calls have to meet.
ghost use Rattle.cg_refine.specs.Laws.{FieldsStandAside, NodesAreRefined, PayloadsAreAll, SidesDivide, TermsAreRefined};

/// Where evaluation of parts and of calls is refined by their updates, so is that of a node of any form (the paper's refinement, section 3).
pub fn nodes_are_refined()
    ensures { NodesAreRefined }
{}

/// So evaluation of a term is, where that of calls is: it gives scalars that represent the value, at the same cost, by a step from what the
/// context reaches to what the result reaches.
pub fn terms_are_refined()
    ensures { TermsAreRefined }
{}

/// Marks divide a context that a heap represents: each side is represented, and what may be written is that of both sides together.
pub fn sides_divide()
    ensures { SidesDivide }
{}

/// A field that is taken reaches, with the record that is left, what the record did.
pub fn fields_stand_aside()
    ensures { FieldsStandAside }
{}

/// A payload reaches what its variant does.
pub fn payloads_are_all()
    ensures { PayloadsAreAll }
{}
