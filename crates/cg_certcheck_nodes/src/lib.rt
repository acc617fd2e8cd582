//! Stage: certificates. What a form comes to by its parts.
//! Role: part of `cg_certcheck`.
//! Promises: `let_node`, `case_node` and so on, each as the pass answers.
//! May cite: anything below it, of its stage and of those below; no crate above.
//! docs/LANGUAGE.md, "Certificates", says the rows.
#![tactic(auto)]

mod nodes;

pub use nodes::{
    annot_node, app_node, case_node, cast_node, con_node, esac_node, if_node, let_bang_node,
    let_node, member_node, operated, operated_both, put_node, take_node,
};
