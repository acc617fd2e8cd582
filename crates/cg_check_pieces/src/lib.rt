//! Stage: types. Small parts of which both checkers are made; it knows neither pass.
//! Role: part of `cg_check`.
//! Promises: `KeptBodies`, `parts_of`, `next_wanted`, `add_part`, `turned`, `two_operands`, `copied_arguments` and so on, each exactly.
//! May cite: anything below it, of its stage and of those below; no crate above.
//! What is kept of bodies, fields of a record in turn and from behind, lists that go into a core, directions of parts, and small tests.
#![tactic(auto)]

mod copies;
mod directions;
mod fields;
mod kept;
mod operands;
mod questions;
mod types;

pub use copies::{copied_arguments, copied_observers};
pub use directions::{guided_direction, is_by_right, may_be_made_of};
pub use fields::{add_core, add_part, add_tree, later_wanted, next_wanted, parts_of, turned};
pub use kept::{KeptBodies, KeptBody};
pub use operands::{kept_while, one_operand, two_operands};
pub use questions::{is_left, is_literal, is_seen_at, is_there, other_way};
pub use types::{boxed, copied, given, plain};
