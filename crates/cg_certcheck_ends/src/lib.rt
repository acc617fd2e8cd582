//! Stage: certificates. The ends of the forms of a body: leaves, what is tested behind the parts of a node, and marks between them.
//! Role: part of `cg_certcheck`.
//! Promises: `check_var`, `end_app` and so on, each as the pass answers.
//! May cite: anything below it, of its stage and of those below; no crate above.
//! docs/LANGUAGE.md, "Certificates", says the rows.
#![tactic(auto)]

mod between;
mod ends;
mod leaves;

pub use between::{later_strings, next_marks, reach_left};
pub use ends::{
    Operator, end_annot, end_app, end_by_left, end_by_right, end_cast, end_esac, end_member,
    end_put, end_struct, end_unary, last_in_front, operator_at, small, taken_by_sort,
};
pub use leaves::{check_bool, check_literal, check_mention, check_unit, check_var};
