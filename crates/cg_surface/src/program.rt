// Programs, as they are written.
use crate::{Pat, SExpr, STy};
use cg_base::{Bound, Items, Place};
use cg_core::At;

/// A program: its items in order.
#[derive(Drop)]
pub struct Program {
    pub items: Items<Item>,
}

/// An item: docs/LANGUAGE.md, "Items". A synonym is `type Name params = body`, an abstract type the same without a body, a
/// signature `name : all vars. type`, with the place of each variable, and a definition `name param = body`.
#[derive(Drop)]
pub enum Item {
    Synonym {
        at: At,
        params: Items<At>,
        body: STy,
    },
    Abstract {
        at: At,
        params: Items<At>,
    },
    Signature {
        at: At,
        vars: Items<Bound>,
        places: Items<Place>,
        ty: STy,
    },
    Define {
        at: At,
        param: Pat,
        body: SExpr,
    },
}
