// Types, as they are written.
use cg_base::{Items, Name, Place};
use cg_core::At;

/// A written type, at the place of its first token, a parenthesis included.
#[cycle(written)]
pub struct STy {
    pub place: Place,
    pub form: STyForm,
}

impl Drop for STy {
    #[cycle(written)]
    fn drop(self) {
        let STy { place: _, form } = self;
        drop(form);
    }
}

/// The form of a written type: docs/LANGUAGE.md, "Types". `Name` is a type or a type variable with its arguments,
/// `Fields` a record (true where it is boxed), `Bang` is `t!`, and the place of `TakeAll` is that of its word `take`.
#[cycle(written)]
#[derive(Drop)]
pub enum STyForm {
    Name(Name, Items<STy>),
    Unit,
    Tuple(Items<STy>),
    Paren(Box<STy>),
    Arrow(Box<STy>, Box<STy>),
    Fields(Items<SPart>, bool),
    Variant(Items<SAlt>),
    Bang(Box<STy>),
    TakeSome(Box<STy>, Items<At>),
    TakeAll(Box<STy>, Place),
}

/// A field of a record type: `name : type`.
#[cycle(written)]
#[derive(Drop)]
pub struct SPart {
    pub at: At,
    pub ty: STy,
}

/// An alternative of a variant type, with the type of its payload where one is written.
#[cycle(written)]
#[derive(Drop)]
pub struct SAlt {
    pub at: At,
    pub ty: Option<STy>,
}
