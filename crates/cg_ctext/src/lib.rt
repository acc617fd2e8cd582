//! Stage: C. The text of a C program.
//! Role: public.
//! Promises: `print_c` gives, of a program that can be printed, a text that spells it.
//! May cite: anything of its stage and of those below; no crate above.
//! docs/LANGUAGE.md, "The C text", says what the text of a program may be; this is the one with a line for each statement.
#![tactic(auto)]

mod declaration;
mod function;
mod operand;
mod print;
mod put;
mod statement;

pub use print::print_c;
