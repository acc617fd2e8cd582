//! Stage: ground. Kernel terms, cores and derivations.
//! Role: public.
//! Promises: `erase`, the kernel term of a core; `At` and `TyArg` copy to equal values.
//! May cite: anything of its stage and of those below; no crate above.
//! docs/LANGUAGE.md, "Terms", says what the terms stand for.
#![tactic(auto)]

mod at;
mod derivation;
mod erasure;
mod kernel;
mod op;
mod term;

pub use at::{At, TyArg};
pub use cg_base::{Fun, Lib};
pub use derivation::{Deriv, Mark, Node};
pub use erasure::erase;
pub use kernel::{KBody, KFun, Kernel};
pub use op::Op;
pub use term::{FieldTerm, Form, Seen, Term, Typed};
