//! Stage: types. What a form of term comes to by its parts: core, derivation with the occurrence marks, uses.
//! Role: part of `cg_check`.
//! Promises: `let_node`, `case_node` and a call for each other form, exactly as defined (`specs/Nodes.antt`).
//! May cite: anything below it, of its stage and of those below; no crate above.
//! docs/LANGUAGE.md, "Typing", says what marks and derivations are.
#![tactic(auto)]

mod fields;
mod got;
mod nodes;
mod scopes;
mod types;

pub use fields::{Fields, are_none, in_front, no_fields, record_node, struct_node};
pub use got::{Got, leaf_of};
pub use nodes::{
    annot_node, app_node, case_node, cast_node, con_node, esac_node, if_node, let_bang_node,
    let_node, member_node, operated, operated_both, put_node, take_node,
};
pub use scopes::{behind_observed, end_scoped, end_taken, enter_both, enter_copy};
pub use types::boxed_tested;
