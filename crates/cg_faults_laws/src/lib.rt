//! Stage: types. The two definitions of the fault of a source name one fault.
//! Role: laws.
//! Promises: `kernels_are_accepted_or_at_fault`, `uses_agree`, `touches_agree`, `types_are_within`, `bound_variables_stand_below`.
//! May cite: definitions, laws and public crates below; no code above.
#![tactic(auto)]

mod law;

pub use law::{
    bound_variables_stand_below, kernels_are_accepted_or_at_fault, touches_agree, types_are_within,
    uses_agree,
};
