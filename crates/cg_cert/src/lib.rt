//! Stage: certificates. Certificate texts, read and printed.
//! Role: public.
//! Promises: `read_cert`, `print_cert`; laws: `one_certificate`, `one_byte`, `printed_is_read`, `kept_is_marked`, `checked_is_read`.
//! May cite: anything of its stage and of those below; no crate above.
//! docs/LANGUAGE.md, "Certificates", says what a text is.
#![tactic(auto)]

mod cert;
mod fault;
mod law;
mod print;
mod read;
mod reader;
mod word;

pub use cert::{Cert, CertFun, CertNode};
pub use fault::CertFault;
pub use law::{checked_is_read, kept_is_marked, one_byte, one_certificate, printed_is_read};
pub use print::print_cert;
pub use read::read_cert;
