//! Stage: command. The command `gen` is never refused, and its functions give what they should.
//! Role: laws.
//! Promises: `gen_answers`, `gen_goes`, `gen_is_never_refused`.
//! May cite: definitions, laws and public crates below; no code above.
//! docs/LANGUAGE.md, "Generator", says what the generated source is, and "Commands" what the command does.
#![tactic(auto)]

mod law;

pub use law::{gen_answers, gen_goes, gen_is_never_refused};
