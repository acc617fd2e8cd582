// Expressions, as they are written.
use crate::{Pat, STy};
use cg_base::{Items, Name, Place};
use cg_core::{At, Op};

/// An expression, at the place of its first token; an operator with two operands stands at its sign's place.
#[cycle(expr)]
pub struct SExpr {
    pub place: Place,
    pub form: SForm,
}

impl Drop for SExpr {
    #[cycle(expr)]
    fn drop(self) {
        let SExpr { place: _, form } = self;
        drop(form);
    }
}

/// The form of an expression: docs/LANGUAGE.md, "Expressions". `Name` has the type arguments that are written; a number is
/// None where it is above 2^64 - 1; `Sig` is `(e : t)`; the names of `If` and `Match` are those that are observed.
#[cycle(expr)]
#[derive(Drop)]
pub enum SForm {
    Name(Name, Items<STy>),
    Number(Option<u64>),
    Bool(bool),
    Unit,
    Paren(Box<SExpr>),
    Sig(Box<SExpr>, STy),
    Tuple(Items<SExpr>),
    Fields(Items<FExpr>),
    Con(Name, Option<Box<SExpr>>),
    App(Box<SExpr>, Box<SExpr>),
    Member(Box<SExpr>, At),
    Put(Box<SExpr>, Items<FExpr>),
    Unary(Op, Box<SExpr>),
    Upcast(Box<SExpr>),
    Binary(Op, Box<SExpr>, Box<SExpr>),
    Let(Items<Bind>, Box<SExpr>),
    If(Box<SExpr>, Items<At>, Box<SExpr>, Box<SExpr>),
    Match(Box<SExpr>, Items<At>, Items<Alt>),
}

/// What a `let` binds: a pattern, an expression, and the variables that are observed in it.
#[cycle(expr)]
#[derive(Drop)]
pub struct Bind {
    pub pat: Pat,
    pub value: SExpr,
    pub seen: Items<At>,
}

/// A field with its value; a field written alone has the variable of its name, at its own place.
#[cycle(expr)]
#[derive(Drop)]
pub struct FExpr {
    pub at: At,
    pub value: SExpr,
}

/// An alternative of a match, at the place of its constructor, or of its pattern where it has none.
#[cycle(expr)]
#[derive(Drop)]
pub struct Alt {
    pub place: Place,
    pub con: Option<Name>,
    pub pat: Pat,
    pub body: SExpr,
}
