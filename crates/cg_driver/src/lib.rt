//! Stage: command. The top call: words, the steps of a command, and one write.
//! Role: public.
//! Promises: `cogent`, `honest_cogent`; laws: `one_outcome`, `one_text`, `typing_decides`, `status_0_is_acceptance`.
//! May cite: anything of its stage and of those below; no crate above.
//! Promises also: `certificates_decide`, `only_build_writes`, `build_writes_both`, `status_0_of_build`, `status_0_is_a_derivation`.
//! Promises also: `status_0_of_run`, `rechecked_is_accepted` and `printed_is_certified`.
//! docs/LANGUAGE.md says what the commands do and print; `specs/Commands.antt` has each command as a list of steps.
#![tactic(auto)]

mod build;
mod call;
mod check;
mod entry;
mod execute;
mod judge;
mod law;
mod machine;
mod made;
mod plan;
mod recheck;
mod run;

pub use call::cogent;
pub use cg_driver_steps::Status;
pub use cg_driver_text::{TextFault, text_run};
pub use law::{
    build_writes_both, certificates_decide, honest_cogent, one_outcome, one_text,
    only_build_writes, printed_is_certified, rechecked_is_accepted, status_0_is_a_derivation,
    status_0_is_acceptance, status_0_of_build, status_0_of_run, typing_decides,
};
