// Where the value of a term is kept.
#![tactic(auto)]

ghost use Rattle.std.specs.Prelude.{◌≡◌, IfOk};
ghost use Rattle.cg_ctree.specs.declared.tree.COpnd.TheVariants.{Path};
ghost use Rattle.cg_cgen_def.specs.Places as places;
ghost use Rattle.cg_cgen_lines.specs.Views.{base_of, step_of};
ghost use Rattle.cg_lower_nodes.specs.Views.{is_bare as is_bare_place, is_number as is_number_place, is_own as is_own_place, place_of};

use cg_base::{Items, Memory};
use cg_cgen_lines::{Base, Step, path};
use cg_ctree::COpnd;
use std::alloc::Global;

/// A number, or the part of a variable that steps lead to (docs/LANGUAGE.md, "The C of instances", values).
pub enum Place {
    Number(u64),
    Held(Base, Items<Step>),
}

impl Drop for Place {
    fn drop(self) {
        match self {
            Place::Number(_) => (),
            Place::Held(_, steps) => drop(steps),
        }
    }
}

// Equal steps.
fn copy_steps(alloc: Global, steps: &Items<Step>) -> Result<Items<Step>, Memory>
    ensures { IfOk result (λ copies. copies ≡ steps.now) }
{
    let mut copies = Items::new(alloc);
    for step in steps.as_slice() {
        copies.push(*step)?;
    }
    Ok(copies)
}

impl Place {
    /// An equal place.
    pub fn copy(&self, alloc: Global) -> Result<Place, Memory>
        ensures { IfOk result (λ place. place ≡ self.now) }
    {
        match self {
            Place::Number(number) => Ok(Place::Number(*number)),
            Place::Held(base, steps) => Ok(Place::Held(*base, copy_steps(alloc, steps)?)),
        }
    }

    /// A part of what is kept here; a number has none.
    pub fn at(self, step: Step) -> Result<Place, Memory>
        ensures { IfOk result (λ place. place_of place ≡ places.at (step_of step) (place_of self)) }
    {
        match self {
            Place::Number(number) => Ok(Place::Number(number)),
            Place::Held(base, mut steps) => {
                steps.push(step)?;
                Ok(Place::Held(base, steps))
            }
        }
    }

    /// The operand that reads this place.
    pub fn operand(&self, alloc: Global) -> Result<COpnd, Memory>
        ensures { IfOk result (λ o. o ≡ places.operand (place_of self.now)) }
    {
        match self {
            Place::Number(number) => Ok(COpnd::Number(*number)),
            Place::Held(base, steps) => Ok(COpnd::Path(path(alloc, *base, steps.as_slice())?)),
        }
    }

    /// The variable that it is a part of.
    pub(crate) fn base(&self) -> Base
        ensures { base_of result ≡ places.base_of (place_of self.now) }
    {
        match self {
            Place::Number(_) => Base::Argument,
            Place::Held(base, _) => *base,
        }
    }

    /// Whether it is a number.
    pub(crate) fn is_number(&self) -> bool
        ensures { result ≡ is_number_place (place_of self.now) }
    {
        match self {
            Place::Number(_) => true,
            Place::Held(_, _) => false,
        }
    }

    /// Whether it is a whole variable.
    pub(crate) fn is_bare(&self) -> bool
        ensures { result ≡ is_bare_place (place_of self.now) }
    {
        match self {
            Place::Number(_) => false,
            Place::Held(_, steps) => steps.len() == 0,
        }
    }

    /// Whether it is a whole local from a number on.
    pub(crate) fn is_own(&self, from: usize) -> bool
        ensures { result ≡ is_own_place from (place_of self.now) }
    {
        match self {
            Place::Held(Base::Local(at), steps) => steps.len() == 0 && from <= *at,
            _ => false,
        }
    }
}
