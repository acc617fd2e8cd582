//! Stage: certificates. The second checker: a certificate against a kernel, node by node.
//! Role: public.
//! Promises: `recheck` judges a certificate exactly (`specs/Judged.antt`).
//! May cite: anything of its stage and of those below; no crate above.
//! It finds no splits: those of the certificate are tested. docs/LANGUAGE.md, "Certificates", says the rows.
#![tactic(auto)]

mod functions;
mod pass;

pub use functions::recheck;
