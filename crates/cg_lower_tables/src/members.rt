// What stands for types in a table of structs.
use crate::Host;
use cg_base::{Items, Word};

// What has parts: a variant, or a record.
#[derive(Clone, Copy)]
pub(crate) enum Kind {
    Variant,
    Unboxed,
    Boxed,
}

// What C sees of a type: a word, a pointer to the struct of an abstract type, a struct, or a pointer to the struct of the type at a place.
#[derive(Clone, Copy)]
pub(crate) enum Shape {
    Word(Word),
    Abstract(Host),
    Struct,
    Pointer(u32),
}

// What stands for a type: the place of the type that stands for its form, and what C sees of it.
#[derive(Clone, Copy)]
pub(crate) struct Member {
    pub(crate) at: u32,
    pub(crate) shape: Shape,
}

// A struct: that of a variant or of a record, with what stands for the types of its parts.
pub(crate) struct Row {
    pub(crate) is_variant: bool,
    pub(crate) members: Items<Member>,
}

impl Drop for Row {
    fn drop(self) {
        let Row {
            is_variant: _,
            members,
        } = self;
        drop(members);
    }
}
