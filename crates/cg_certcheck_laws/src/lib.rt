//! Stage: certificates. The events of a certificate decide exactly what it spells, and one pass answers the first.
//! Role: laws.
//! Promises: `events_decide`, `pass_answers_the_first_fault`, `kept_is_listed`, `broken_row`, `out_of_place`, `numbers_are_in_range`.
//! May cite: definitions, laws and public crates below; no code above.
#![tactic(auto)]

mod law;

pub use law::{
    broken_row, events_decide, kept_is_listed, numbers_are_in_range, out_of_place,
    pass_answers_the_first_fault,
};
