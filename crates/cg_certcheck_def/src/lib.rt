//! Stage: certificates. What a certificate is judged by, node by node, and the second checker as a pure function.
//! Role: definitions.
//! Promises: definitions alone (`specs/Events.antt`, `Tests`, `Reads`, `Pass`).
//! May cite: definitions and plain data of crates below; no laws, and no code above.
//! docs/LANGUAGE.md, "Certificates", says the order of judging.
#![tactic(auto)]
