//! Stage: types. Contexts of the checker: where scopes begin and end, what is observed, and tests that need no term.
//! Role: part of `cg_check`.
//! Promises: `enter`, `leave`, `end`, `observe`, `restore`, `may_touch`, `meet`, `branches`, `member_type` and so on, as the pass answers.
//! May cite: anything below it, of its stage and of those below; no crate above.
//! docs/LANGUAGE.md, "Typing", says the rules.
#![tactic(auto)]

mod observed;
mod pieces;
mod scopes;
mod source;
mod stop;
mod tests;

pub use observed::{flags_of, observe, restore};
pub use pieces::{
    alternative_type, injected_type, last_type, member_type, need, put_type, taken_type,
};
pub use scopes::{but_last, end, escape, inner_seen, inner_two, last_use, use_before_last};
pub use source::{Known, Source, enter, leave};
pub use stop::Stop;
pub use tests::{branches, end_scope, inner, may_touch, meet, observe_all, type_at};
