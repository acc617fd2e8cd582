// Types of a table as trees.
#![tactic(auto, using(cg_kinds::proofs::SubstSteps::subst_steps, crate::proofs::Fronts::front_steps))]

ghost use Rattle.std.specs.Prelude.{◌≡◌, [], map, IfOk};
ghost use Rattle.cg_base.specs.Types.{type_of, part_of, arrow};
ghost use Rattle.cg_inst_types.specs.Forms.{with_arguments, with_parts};
ghost use Rattle.cg_inst_types.specs.Places.{name_at, type_at};

use crate::{Layers, Node};
use cg_base::{Items, Memory, Name, Part, Ty};
use std::alloc::Global;

// The most nodes that a tree may have.
const LARGEST: u32 = 1_048_576;

// How deep a tree may be nested.
const DEEPEST: u32 = 4_096;

impl Layers {
    // The type at a place as a tree, or unit where there is no such place. Want of memory also where it has more than
    // `LARGEST` nodes or is nested more than `DEEPEST` deep.
    pub(crate) fn tree(&self, alloc: Global, at: u32) -> Result<Ty, Memory>
        ensures { IfOk result (λ ty. type_of ty ≡ type_at self.now.types at) }
    {
        if self.nodes(at) > LARGEST || self.depth(at) > DEEPEST {
            return Err(Memory);
        }
        self.build(alloc, at, DEEPEST)
    }

    // The same, where no more than `left` levels are left.
    #[cycle(build)]
    fn build(&self, alloc: Global, at: u32, left: u32) -> Result<Ty, Memory>
        ensures { IfOk result (λ ty. type_of ty ≡ type_at self.now.types at) }
    {
        if left == 0 {
            return Err(Memory);
        }
        match self.node(at) {
            None => Ok(Ty::Unit),
            Some(Node::Unit) => Ok(Ty::Unit),
            Some(Node::Word(word)) => Ok(Ty::Word(word)),
            Some(Node::Bool) => Ok(Ty::Bool),
            Some(Node::Arrow { from, to }) => self.build_arrow(alloc, from, to, left - 1),
            Some(Node::Abs { name: _, sigil: _ }) => self.build_abstract(alloc, at, left - 1),
            Some(Node::Argument { rest: _, ty: _ }) => self.build_abstract(alloc, at, left - 1),
            Some(Node::Variant) => self.build_with_parts(alloc, at, left - 1),
            Some(Node::Record { sigil: _ }) => self.build_with_parts(alloc, at, left - 1),
            Some(
                Node::Part {
                    rest: _,
                    name: _,
                    ty: _,
                    taken: _,
                },
            ) => self.build_with_parts(alloc, at, left - 1),
        }
    }

    // The arrow between the types at two places, each with no more than `left` levels.
    #[cycle(build)]
    #[inline(never)]
    fn build_arrow(&self, alloc: Global, from: u32, to: u32, left: u32) -> Result<Ty, Memory>
        ensures { IfOk result (λ ty. type_of ty ≡ arrow (type_at self.now.types from) (type_at self.now.types to)) }
    {
        let from = Box::new(alloc, self.build(alloc, from, left)?)?;
        let to = Box::new(alloc, self.build(alloc, to, left)?)?;
        Ok(Ty::Arrow(from, to))
    }

    // The abstract type at a place, its arguments with no more than `left` levels.
    #[cycle(build)]
    #[inline(never)]
    fn build_abstract(&self, alloc: Global, at: u32, left: u32) -> Result<Ty, Memory>
        ensures { IfOk result (λ ty. type_of ty ≡ type_at self.now.types at) }
    {
        let mut arguments = Items::new(alloc);
        let rest = self.build_arguments(alloc, at, left, &mut arguments)?;
        match self.node(rest) {
            Some(Node::Abs { name, sigil }) => {
                let name = Name::new(alloc, self.name(name))?;
                Ok(Ty::Abs(name, arguments, sigil))
            }
            _ => Err(Memory),
        }
    }

    // Adds the arguments of the abstract type at a place, and gives the place of the type with none.
    #[cycle(build)]
    fn build_arguments(
        &self,
        alloc: Global,
        at: u32,
        left: u32,
        arguments: &mut Items<Ty>,
    ) -> Result<u32, Memory>
        requires { arguments.old ≡ [] }
        ensures { IfOk result (λ rest. with_arguments (map type_of arguments.new) (type_at self.now.types rest) ≡ type_at self.now.types at) }
    {
        let mut rest = at;
        for _ in 0..LARGEST {
            match self.node(rest) {
                Some(Node::Argument { rest: next, ty }) => {
                    arguments.push(self.build(alloc, ty, left)?)?;
                    rest = next;
                }
                _ => return Ok(rest),
            }
        }
        Err(Memory)
    }

    // The variant or record at a place, its parts with no more than `left` levels.
    #[cycle(build)]
    #[inline(never)]
    fn build_with_parts(&self, alloc: Global, at: u32, left: u32) -> Result<Ty, Memory>
        ensures { IfOk result (λ ty. type_of ty ≡ type_at self.now.types at) }
    {
        let mut parts = Items::new(alloc);
        let rest = self.build_parts(alloc, at, left, &mut parts)?;
        match self.node(rest) {
            Some(Node::Variant) => Ok(Ty::Variant(parts)),
            Some(Node::Record { sigil }) => Ok(Ty::Fields(parts, sigil)),
            _ => Err(Memory),
        }
    }

    // Adds the parts of the variant or record at a place, and gives the place of the type with none.
    #[cycle(build)]
    fn build_parts(
        &self,
        alloc: Global,
        at: u32,
        left: u32,
        parts: &mut Items<Part>,
    ) -> Result<u32, Memory>
        requires { parts.old ≡ [] }
        ensures { IfOk result (λ rest. with_parts (map part_of parts.new) (type_at self.now.types rest) ≡ type_at self.now.types at) }
    {
        let mut rest = at;
        for _ in 0..LARGEST {
            match self.node(rest) {
                Some(
                    Node::Part {
                        rest: next,
                        name,
                        ty,
                        taken,
                    },
                ) => {
                    parts.push(self.build_part(alloc, name, ty, taken, left)?)?;
                    rest = next;
                }
                _ => return Ok(rest),
            }
        }
        Err(Memory)
    }

    // A part, its type with no more than `left` levels.
    #[cycle(build)]
    fn build_part(
        &self,
        alloc: Global,
        name: u32,
        ty: u32,
        taken: bool,
        left: u32,
    ) -> Result<Part, Memory>
        ensures { IfOk result (λ part. part_of part ≡ record { name = name_at self.now.names name; ty = type_at self.now.types ty; taken = taken }) }
    {
        let name = Name::new(alloc, self.name(name))?;
        let ty = self.build(alloc, ty, left)?;
        Ok(Part { name, ty, taken })
    }
}
