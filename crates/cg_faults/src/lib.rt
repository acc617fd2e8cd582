//! Stage: types. The rules of kinds and types that a source may break, and which of them fails first, said twice.
//! Role: public.
//! Promises: `Rule` and its `text`; definitions: in their own words `specs/Fails.antt`, as a list in reading order `specs/Events.antt`.
//! May cite: anything of its stage and of those below; no crate above.
//! The first goes by occurrences with their paths in the whole body. docs/LANGUAGE.md, "Typing", says the rules.
#![tactic(auto)]

mod rule;

pub use rule::Rule;
