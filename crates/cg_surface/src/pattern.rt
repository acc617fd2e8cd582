// Patterns, as they are written.
use cg_base::{Items, Name, Place};
use cg_core::At;

/// A pattern, at the place of its first token.
#[cycle(pattern)]
pub struct Pat {
    pub place: Place,
    pub form: PatForm,
}

impl Drop for Pat {
    #[cycle(pattern)]
    fn drop(self) {
        let Pat { place: _, form } = self;
        drop(form);
    }
}

/// The form of a pattern: docs/LANGUAGE.md, "Patterns". `Any` is `_`, `Fields` is `#{..}`, and `Take` is a name with
/// the fields that are taken of it.
#[cycle(pattern)]
#[derive(Drop)]
pub enum PatForm {
    Name(Name),
    Any,
    Unit,
    Paren(Box<Pat>),
    Tuple(Items<Pat>),
    Fields(Items<FPat>),
    Take(Name, Items<FPat>),
}

/// A field with the pattern that it is bound to; a field written alone is bound to its own name, at its own place.
#[cycle(pattern)]
#[derive(Drop)]
pub struct FPat {
    pub at: At,
    pub pat: Pat,
}
