// Where among items the reader stands.
ghost use Rattle.std.specs.Prelude.{◌≡◌, [], ◌∷◌, ◌++◌, IfOk};

use cg_base::{Bound, Items, Memory, Name, Place};
use cg_core::At;
use cg_surface::Pat;
use std::alloc::Global;

/// Type variables with their constraints, and where they are written.
#[derive(Drop)]
pub struct Vars {
    pub bounds: Items<Bound>,
    pub places: Items<Place>,
}

impl Vars {
    /// None.
    pub fn new(alloc: Global) -> Vars
        ensures bounds { result.bounds ≡ [] }
        ensures places { result.places ≡ [] }
    {
        Vars {
            bounds: Items::new(alloc),
            places: Items::new(alloc),
        }
    }

    /// With one more.
    pub fn with(self, bound: Bound, place: Place) -> Result<Vars, Memory>
        ensures bounds { IfOk result (λ vars. vars.bounds ≡ self.bounds ++ bound ∷ []) }
        ensures places { IfOk result (λ vars. vars.places ≡ self.places ++ place ∷ []) }
    {
        let mut vars = self;
        vars.bounds.push(bound)?;
        vars.places.push(place)?;
        Ok(vars)
    }
}

/// Where among items the reader stands: at the beginning of one; behind the word `type`; among the parameters of a type; in the type
/// of a synonym; behind the name of an item; behind the colon of a signature; behind `all`; where a type variable is wanted;
/// behind one; behind its `:<`; behind its kinds; behind all of them; in the type of a signature; in a parameter; in
/// a body; or where nothing goes on. A parameter that is too deep is none.
#[derive(Drop)]
pub enum Phase {
    Between,
    AfterType,
    InParams(At, Items<At>),
    InSynonym(At, Items<At>),
    AfterName(At),
    AfterColon(At),
    AfterAll(At),
    WantVar(At, Vars),
    AfterVar(At, Vars, Name, Place),
    WantKinds(At, Vars, Name, Place),
    AfterKinds(At, Vars, Bound, Place),
    WantDot(At, Vars),
    InSignature(At, Vars),
    InParam(At),
    InBody(At, Option<Pat>),
    Failed,
}
