//! Stage: types. What joins the typing rules, the events of a body and the pass of the checker; and cases of each row.
//! Role: laws.
//! Promises: `kernels_are_judged_exactly`, `bodies_are_judged_exactly`, `pass_answers_the_first_fault`, `one_core`.
//! May cite: definitions, laws and public crates below; no code above.
//! Promises also: `accepted_within_limits`, `occurrence_marks_serve`, `normal_forms_are_kept`, `one_fault`.
//! Promises also: `linear_variables_are_used_once`.
#![tactic(auto)]

mod law;

pub use law::{
    accepted_within_limits, binding_cases, bodies_are_judged_exactly, branch_cases, fault_cases,
    kernels_are_judged_exactly, leaf_cases, linear_variables_are_used_once, normal_forms_are_kept,
    occurrence_marks_serve, one_core, one_fault, pass_answers_the_first_fault, record_cases,
    type_limit_case,
};
