// Derivations.
use cg_base::Items;

/// Where an entry of a context goes at a split: it is absent, goes to the first part, to the second, to both,
/// or is observed in the first (docs/LANGUAGE.md, "Typing").
#[derive(Clone, Copy, Debug, PartialEq, Eq)]
pub enum Mark {
    Gone,
    Left,
    Right,
    Both,
    Seen,
}

/// The rule of a derivation's node, named after the form that it types.
#[derive(Clone, Copy, Debug, PartialEq, Eq)]
pub enum Node {
    Var,
    Unit,
    Bool,
    Lit,
    Fun,
    Op,
    App,
    Let,
    LetBang,
    If,
    Con,
    Case,
    Esac,
    Struct,
    Member,
    Take,
    Put,
    Cast,
    Annot,
}

/// A derivation: its rule, a list of marks for each of its splits, and the derivations of its parts
/// (docs/LANGUAGE.md, "Typing").
#[derive(Drop)]
pub struct Deriv {
    pub node: Node,
    pub marks: Items<Items<Mark>>,
    pub parts: Items<Deriv>,
}
