// Kernels.
use crate::{At, Term, TyArg};
use cg_base::{Bound, Items, Place};

/// A function of a source: its name, its type variables, its type, and its body, where it has one.
#[derive(Drop)]
pub struct KFun {
    pub at: At,
    pub vars: Items<Bound>,
    pub ty: TyArg,
    pub body: Option<KBody>,
}

/// The body of a function: where its parameter is written, and its term in the context of that one.
#[derive(Drop)]
pub struct KBody {
    pub param: Place,
    pub term: Term<Place>,
}

/// A source with its names resolved: its functions in the order of their signatures
/// (docs/LANGUAGE.md, "Names").
#[derive(Drop)]
pub struct Kernel {
    pub funs: Items<KFun>,
}
