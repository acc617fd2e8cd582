//! Stage: evaluation. Values, which fit a type, what is asked of them, their printed text, and tables of abstract functions.
//! Role: public.
//! Promises: `Value`, `print_value`, `is_tuple`, `fits`, each exactly; the trait `Extern`, which `NoExtern` keeps.
//! May cite: anything of its stage and of those below; no crate above.
//! docs/LANGUAGE.md, "Values", says what they are.
#![tactic(auto)]

mod fit;
mod foreign;
mod forms;
mod print;
mod value;

pub use fit::fits;
pub use foreign::{Extern, NoExtern};
pub use print::{is_tuple, print_value};
pub use value::{Value, copied};
