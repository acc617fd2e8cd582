// The laws of certificates.
ghost use Rattle.cg_certcheck_laws.specs.Laws.{EventsDecide, KeptIsListed, PassAnswersTheFirstFault};
ghost use Rattle.cg_certcheck_laws.specs.NumberLaws.{BrokenRow, NumbersAreInRange, OutOfPlace};

/// No event of a certificate over a lawful kernel fails exactly where it spells a derivation of the kernel, and no type of a node passes
/// the limit.
pub fn events_decide()
    ensures { EventsDecide }
{}

/// One pass over a kernel's bodies and a certificate's nodes side by side, as a pure function, answers the first event that fails, and
/// where none does the cores of plain typing and the derivations that the nodes spell.
pub fn pass_answers_the_first_fault()
    ensures { PassAnswersTheFirstFault }
{}

/// Where no event of a certificate over a lawful kernel fails, what that pass keeps is what the certificate lists: derivations of cores of
/// the bodies.
pub fn kept_is_listed()
    ensures { KeptIsListed }
{}

/// C2 at node k over a lawful kernel: no certificate with the same first k nodes spells a derivation, whatever functions they stand in and
/// whatever stands behind them.
pub fn broken_row()
    ensures { BrokenRow }
{}

/// C3 at node k over a lawful kernel: no certificate with the same lines in front of its node k spells a derivation, whatever stands behind
/// them.
pub fn out_of_place()
    ensures { OutOfPlace }
{}

/// The number in C2 and C3 over a lawful kernel is from 1 to one more than the number of the certificate's nodes.
pub fn numbers_are_in_range()
    ensures { NumbersAreInRange }
{}
