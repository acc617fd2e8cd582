// The laws of typing, and cases of the rows: for each form a body that is derived, and one that is refused.
ghost use Rattle.cg_check_laws.specs.Cases.{Leaves, Bindings, Branches, Records, TypeTooLarge, SightedRefused, Faults};
ghost use Rattle.cg_check_def.specs.Uses.{LinearVariablesAreUsedOnce};
ghost use Rattle.cg_check_laws.specs.Laws.{BodiesAreJudgedExactly, KernelsAreJudgedExactly, OccurrenceMarksServe, OneCore, AcceptedWithinLimits, OneFault, NormalFormsAreKept, PassAnswersTheFirstFault};

/// Variables, `()`, `True`, numbers and functions: shared twice, of another type, out of range, with a bad type argument.
pub fn leaf_cases()
    ensures { Leaves }
{}

/// Operators, calls, `let` and `let!`: on no word, of no function, dropped, without a type, escaping.
pub fn binding_cases()
    ensures { Bindings }
{}

/// Branches, constructors and matches: used in one branch, with no such alternative, a handled one, or one that is left.
pub fn branch_cases()
    ensures { Branches }
{}

/// Records, members, takes, puts, casts and annotations: of another type, unshared, read-only, taken, absent, not dropped, narrower,
/// or with an array of no word.
pub fn record_cases()
    ensures { Records }
{}

/// A synthesised type of more than 1,024 nodes is told where its node stands.
pub fn type_limit_case()
    ensures { TypeTooLarge }
{}

/// A variable that may be shared and not dropped is told at an observer without a use behind it.
pub fn sighted_case()
    ensures { SightedRefused }
{}

/// Faults in their own words: bodies that are a leaf, and an argument that is never used.
pub fn fault_cases()
    ensures { Faults }
{}

/// Every rule of a lawful body holds exactly where some core of it has a derivation, with any splits.
pub fn bodies_are_judged_exactly()
    ensures { BodiesAreJudgedExactly }
{}

/// A lawful kernel is accepted exactly where no rule fails: its signatures and its bodies.
pub fn kernels_are_judged_exactly()
    ensures { KernelsAreJudgedExactly }
{}

/// Where any derivation types a body's core, the one with the occurrence marks does.
pub fn occurrence_marks_serve()
    ensures { OccurrenceMarksServe }
{}

/// A body has at most one core.
pub fn one_core()
    ensures { OneCore }
{}

/// No event of a lawful kernel fails exactly where it is accepted and no synthesised type passes the limit.
pub fn accepted_within_limits()
    ensures { AcceptedWithinLimits }
{}

/// A kernel has at most one fault.
pub fn one_fault()
    ensures { OneFault }
{}

/// Of a lawful kernel that is accepted, the cores of plain typing and the derivations with the occurrence marks may be kept.
pub fn normal_forms_are_kept()
    ensures { NormalFormsAreKept }
{}

/// What can be neither dropped nor shared is used exactly once by what is derived, on every way through it.
pub fn linear_variables_are_used_once()
    ensures { LinearVariablesAreUsedOnce }
{}

/// The one pass over a lawful kernel answers the first event that fails.
pub fn pass_answers_the_first_fault()
    ensures { PassAnswersTheFirstFault }
{}
