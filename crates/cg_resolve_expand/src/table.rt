// What synonyms are for, by name.
ghost use Rattle.std.specs.Prelude.{◌≡◌};
ghost use Rattle.std.specs.Option.{option_map, option_copied};
ghost use Rattle.cg_base.specs.Types.{type_of};

use cg_base::Ty;
use std::collections::BTreeMap;

/// What the synonyms of a program are for: the body of each, with its parameters by position (docs/LANGUAGE.md, "Synonyms").
#[derive(Drop)]
pub struct Synonyms<'a> {
    pub bodies: BTreeMap<&'a [u8], Ty>,
}

impl<'a> Synonyms<'a> {
    ghost use Rattle.cg_resolve_expand.specs.Known.{known_of};

    /// What the synonym of a name is for, where there is one. It takes no memory.
    pub fn body(&self, name: &[u8]) -> Option<&Ty>
        ensures { option_map type_of (option_copied result) ≡ known_of self.now name.now }
    {
        self.bodies.get(name)
    }
}
