// The heads of types.
#![tactic(auto, using(std::proofs::lemmas::Grind::common_steps, crate::proofs::FieldSteps::field_steps))]

ghost use Rattle.std.specs.Prelude.{◌≡◌, IfOk, take, map};
ghost use Rattle.cg_resolve_declared.specs.Tables.{IsSetOf};
ghost use Rattle.cg_resolve_def.specs.Declared.{is_among};
ghost use Rattle.cg_surface.specs.Written.{to_fields, field_of};
ghost use Rattle.cg_resolve_takes.specs.Heads.{field_names};
ghost use Rattle.cg_resolve_takes.specs.Views.{test_of};

use crate::component::is_component;
use cg_base::{Items, Memory};
use cg_resolve_declared::{Names, add};
use cg_surface::SPart;
use std::alloc::Global;
use std::collections::BTreeSet;
use std::rc::Rc;

/// The names of the fields of a record: those that are written, which synonyms share, or those of a tuple of so many components.
pub enum Fields<'a> {
    Written(Rc<Names<'a>>),
    Components(usize),
}

impl<'a> Drop for Fields<'a> {
    fn drop(self) {
        match self {
            Fields::Written(names) => drop(names),
            Fields::Components(_) => {}
        }
    }
}

/// What the body of a synonym is at its top: a record, one of the synonym's own parameters, also observed, or another type
/// (docs/LANGUAGE.md, "Synonyms").
#[derive(Drop)]
pub enum TypeHead<'a> {
    Record(Fields<'a>),
    Parameter(usize),
    Other,
}

impl<'a> Fields<'a> {
    /// The fields of a written record. Want of memory is its one refusal.
    pub fn of_parts(alloc: Global, parts: &'a Items<SPart>) -> Result<Fields<'a>, Memory>
        ensures { IfOk result (λ fields. test_of fields ≡ is_among (field_names (to_fields (map field_of parts.now)))) }
    {
        Ok(Fields::Written(Rc::new(alloc, names(alloc, parts)?)?))
    }

    /// Whether there is a field of this name. It takes no memory.
    pub fn has(&self, name: &[u8]) -> bool
        ensures { result ≡ test_of self.now name.now }
    {
        match self {
            Fields::Written(names) => names.contains(name),
            Fields::Components(count) => is_component(name, *count),
        }
    }

    /// The same fields. Want of memory is its one refusal.
    pub fn copy(&self) -> Result<Fields<'a>, Memory>
        ensures { IfOk result (λ fields. test_of fields ≡ test_of self.now) }
    {
        match self {
            Fields::Written(names) => Ok(Fields::Written(names.clone()?)),
            Fields::Components(count) => Ok(Fields::Components(*count)),
        }
    }
}

// The names of these fields.
fn names<'a>(alloc: Global, parts: &'a Items<SPart>) -> Result<Names<'a>, Memory>
    ensures { IfOk result (IsSetOf (field_names (to_fields (map field_of parts.now)))) }
{
    let mut names = BTreeSet::new(alloc);
    for part in parts.as_slice() {
        add(&mut names, part.at.name.bytes())?;
    }
    Ok(names)
}
