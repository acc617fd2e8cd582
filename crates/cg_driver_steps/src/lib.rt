//! Stage: command. Commands as lists of steps: what a read, a write and the one print of a command do.
//! Role: part of `cg_driver`.
//! Promises: `read_file`, `write_file`, `print_report`, exactly; law: `clauses_hold_of_other_commands`.
//! May cite: anything below it, of its stage and of those below; no crate above.
//! `specs/` has what a command says, answers and leaves (docs/LANGUAGE.md, "Commands").
#![tactic(auto)]

mod law;
mod report;
mod status;
mod step;

pub use law::clauses_hold_of_other_commands;
pub use report::{Report, Step};
pub use status::Status;
pub use step::{print_report, read_file, write_file};
