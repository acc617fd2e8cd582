//! Stage: command. A large source made of a number, with its heap and its entry.
//! Role: public.
//! Promises: `generate`, `heap_text` and `entry_name`, each to the byte.
//! May cite: anything of its stage and of those below; no crate above.
//! `specs/Generated.antt` has the texts (docs/LANGUAGE.md, "Generator").
#![tactic(auto)]

mod text;

pub use text::{entry_name, generate, heap_text};
