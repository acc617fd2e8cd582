//! Stage: update. Evaluation of terms is refined by their updates, on any heap that represents the context.
//! Role: public.
//! Promises: `terms_are_refined`, `nodes_are_refined`, `sides_divide`, `fields_stand_aside`, `payloads_are_all`.
//! May cite: anything of its stage and of those below; no crate above.
//! docs/LANGUAGE.md, "Parts of a heap", says it in words.
#![tactic(auto)]

mod law;

pub use law::{
    fields_stand_aside, nodes_are_refined, payloads_are_all, sides_divide, terms_are_refined,
};
