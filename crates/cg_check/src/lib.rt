//! Stage: types. The checker: one pass over each body, to its core and derivation or to the first rule that fails.
//! Role: public.
//! Promises: `check` judges a lawful kernel exactly (`specs/Judged.antt`).
//! May cite: anything of its stage and of those below; no crate above.
//! docs/LANGUAGE.md, "Typing", says the rules.
#![tactic(auto)]

mod functions;
mod pass;
mod refusal;

pub use functions::check;
pub use refusal::Refusal;
