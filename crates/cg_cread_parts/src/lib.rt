//! Stage: C. The parts of C texts, one symbol at a time: symbols, operands, declarations, heads of functions.
//! Role: part of `cg_cread`.
//! Promises: `symbol_at`, `Operand`, `Declaration`, `Row`, `Head`, each the machine that is defined.
//! May cite: anything below it, of its stage and of those below; no crate above.
//! docs/LANGUAGE.md, "The C text", says what is spelled.
#![tactic(auto)]

mod declaration;
mod head;
mod operand;
mod symbol;

pub use declaration::{Declaration, Row};
pub use head::{Head, Signature};
pub use operand::{Operand, function_name, path_name};
pub use symbol::{Keyword, Symbol, symbol_at};
