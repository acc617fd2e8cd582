// Terms.
use crate::{At, Op, TyArg};
use cg_base::{Fun, Items, Name, Place, Ty};

/// A variable that a `LetBang` observes, by its position in the context, and where it is written.
#[derive(Clone, Copy, Debug, PartialEq, Eq)]
pub struct Seen {
    pub var: u32,
    pub place: Place,
}

/// The note of a core's node: where it is written, and its type.
#[derive(Drop)]
pub struct Typed {
    pub place: Place,
    pub ty: Ty,
}

/// A term, with a note at each node: a kernel term's notes are places, and those of a core are places with
/// types (the paper's core terms, section 3).
#[cycle(term)]
pub struct Term<A> {
    pub note: A,
    pub form: Form<A>,
}

impl<A: Drop> Drop for Term<A> {
    #[cycle(term)]
    fn drop(self) {
        let Term { note, form } = self;
        drop(note);
        drop(form);
    }
}

/// The forms of terms (docs/LANGUAGE.md, "Terms"). `Var` is a variable, by its position in the context. A
/// `Place` inside a form is where a variable is bound, and an `At` a field or an alternative that is named.
#[cycle(term)]
#[derive(Drop)]
pub enum Form<A> {
    Var(u32),
    Unit,
    Bool(bool),
    Lit(Option<u64>),
    Fun(Fun, Items<TyArg>),
    Op(Op, Items<Term<A>>),
    App(Box<Term<A>>, Box<Term<A>>),
    Let(Place, Box<Term<A>>, Box<Term<A>>),
    LetBang(Items<Seen>, Place, Box<Term<A>>, Box<Term<A>>),
    If(Box<Term<A>>, Box<Term<A>>, Box<Term<A>>),
    Con(Name, Box<Term<A>>),
    Case(Box<Term<A>>, At, Place, Box<Term<A>>, Box<Term<A>>),
    Esac(At, Box<Term<A>>),
    Struct(Items<FieldTerm<A>>),
    Member(Box<Term<A>>, At),
    Take(Box<Term<A>>, At, Place, Place, Box<Term<A>>),
    Put(Box<Term<A>>, At, Box<Term<A>>),
    Cast(Box<Term<A>>),
    Annot(Box<Term<A>>, TyArg),
}

/// A field of a record that is made, with its value.
#[cycle(term)]
#[derive(Drop)]
pub struct FieldTerm<A> {
    pub name: Name,
    pub term: Term<A>,
}
