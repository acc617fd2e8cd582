//! Stage: types. The ends of the forms of a body: its leaves, and what is tested behind the parts of a node.
//! Role: part of `cg_check`.
//! Promises: `check_var`, `end_app` and so on, each as the pass answers.
//! May cite: anything below it, of its stage and of those below; no crate above.
//! docs/LANGUAGE.md, "Typing", says the rules.
#![tactic(auto)]

mod ends;
mod leaves;

pub use ends::{
    end_annot, end_app, end_by_left, end_by_right, end_case, end_cast, end_esac, end_if,
    end_member, end_put, end_struct, end_unary, small, taken_by_sort,
};
pub use leaves::{check_bare, check_bool, check_literal, check_mention, check_unit, check_var};
