//! Stage: certificates. What a part of a body comes to, and a record by its fields; and what a part of a type holds that a node names.
//! Role: part of `cg_certcheck`.
//! Promises: `Got`, `Fields`, `struct_node`, `member_type` and so on, each as the pass answers.
//! May cite: anything below it, of its stage and of those below; no crate above.
//! docs/LANGUAGE.md, "Certificates", says the rows.
#![tactic(auto)]

mod fields;
mod got;
mod pieces;

pub use fields::{Fields, in_front, no_fields, record_node, struct_node};
pub use got::{End, Got, Pair, Single, Triple, alone, branched, leaf_of, made, paired};
pub use pieces::{alternative_type, last_type, member_type, put_type, taken_type};
