//! Stage: types. What typing asks of types: parts by name, forms and sizes, types of functions and their arguments.
//! Role: part of `cg_typing`.
//! Promises: `field_in`, `alternative_in`, `with_part`, `mentioned`, `arguments_fault`, `library_type` and so on, each exactly.
//! May cite: anything below it, of its stage and of those below; no crate above.
//! docs/LANGUAGE.md, "Typing", says what they mean.
#![tactic(auto)]

mod form;
mod function;
mod library;
mod named;
mod record;
mod sort;

pub use form::{
    has_word_arrays, in_range, is_arrow, is_bool, is_read_only, is_small_enough, is_variant,
    is_word, widens,
};
pub use function::{arguments_fault, mentioned};
pub use library::library_type;
pub use named::{
    all_taken, alternative_in, field_in, held, is_cell, is_last, may_be_put_over, with_part,
};
pub use record::is_made_of;
pub use sort::{Sort, sort_of, takes};
