// Types that are entered in a table.
#![tactic(auto, using(cg_kinds::proofs::SubstSteps::subst_steps, crate::proofs::Fronts::front_steps), unfolding(cg_kinds::specs::Kinds::subst))]

ghost use Rattle.std.specs.Prelude.{◌≡◌, ◌<◌, ◌≤◌, Some, length, map, take, slice_get, IfOk, IsTrue};
ghost use Rattle.cg_base.specs.Types.{type_of, part_of, abs, arrow, none};
ghost use Rattle.cg_kinds.specs.Kinds.{bang, or_unit, subst as subst_of, subst_piece};
ghost use Rattle.cg_inst_types.specs.Places.{Keeps, type_at};
ghost use Rattle.cg_inst_types.specs.Layers.{types_at, has_parts, is_abs};
ghost use Rattle.cg_inst_types.specs.Forms.{with_argument, with_arguments, with_part, with_parts};

use crate::{Layers, Node};
use cg_base::{Items, Memory, Name, Part, Sigil, Ty};
use std::alloc::Global;

impl Layers {
    // The place of a type, with the types at `args` for its variables, where only the first `held` places of the table
    // count; entered where it isn't there.
    #[cycle(enter)]
    pub(crate) fn enter(
        &mut self,
        alloc: Global,
        ty: &Ty,
        args: &[u32],
        held: usize,
    ) -> Result<u32, Memory>
        requires { held ≤ length self.old.types }
        ensures place { IfOk result (λ at. slice_get self.new.types at ≡ Some (subst_of (types_at (take held self.old.types) args.now) (type_of ty.now))) }
        ensures kept { Keeps self.old.types self.new.types }
    {
        match ty {
            Ty::Var(variable) => self.argument(args, *variable, held),
            Ty::Seen(variable) => self.observed_argument(args, *variable, held),
            Ty::Unit => self.place(Node::Unit),
            Ty::Word(word) => self.place(Node::Word(*word)),
            Ty::Bool => self.place(Node::Bool),
            Ty::Arrow(from, to) => {
                let from = self.enter(alloc, from, args, held)?;
                let to = self.enter(alloc, to, args, held)?;
                self.place(Node::Arrow { from, to })
            }
            Ty::Abs(name, types, sigil) => {
                let rest = self.place_abstract(alloc, name, *sigil)?;
                self.enter_arguments(alloc, rest, types, args, held)
            }
            Ty::Variant(parts) => {
                let rest = self.place(Node::Variant)?;
                self.enter_parts(alloc, rest, parts, args, held)
            }
            Ty::Fields(parts, sigil) => {
                let rest = self.place(Node::Record { sigil: *sigil })?;
                self.enter_parts(alloc, rest, parts, args, held)
            }
        }
    }

    // The place of the argument for a variable, or of unit where there is none.
    fn argument(&mut self, args: &[u32], variable: u32, held: usize) -> Result<u32, Memory>
        requires { held ≤ length self.old.types }
        ensures place { IfOk result (λ at. slice_get self.new.types at ≡ Some (or_unit (slice_get (types_at (take held self.old.types) args.now) variable))) }
        ensures kept { Keeps self.old.types self.new.types }
    {
        match args.get(variable as usize) {
            Some(at) if (*at as usize) < held => Ok(*at),
            _ => self.place(Node::Unit),
        }
    }

    // The place of its bang.
    fn observed_argument(&mut self, args: &[u32], variable: u32, held: usize) -> Result<u32, Memory>
        requires { held ≤ length self.old.types }
        ensures place { IfOk result (λ at. slice_get self.new.types at ≡ Some (bang (or_unit (slice_get (types_at (take held self.old.types) args.now) variable)))) }
        ensures kept { Keeps self.old.types self.new.types }
    {
        let at = self.argument(args, variable, held)?;
        Ok(self.observed(at))
    }

    // The place of an abstract type with no arguments.
    pub(crate) fn place_abstract(
        &mut self,
        alloc: Global,
        name: &Name,
        sigil: Sigil,
    ) -> Result<u32, Memory>
        ensures place { IfOk result (λ at. slice_get self.new.types at ≡ Some (abs name.now none sigil)) }
        ensures kept { Keeps self.old.types self.new.types }
    {
        let name = self.enter_name(alloc, name)?;
        self.place(Node::Abs { name, sigil })
    }

    // The place of the abstract type at a place with these arguments in front of its own.
    #[cycle(enter)]
    fn enter_arguments(
        &mut self,
        alloc: Global,
        rest: u32,
        types: &Items<Ty>,
        args: &[u32],
        held: usize,
    ) -> Result<u32, Memory>
        requires held { held ≤ length self.old.types }
        requires rest { rest < length self.old.types }
        requires form { IsTrue (is_abs (type_at self.old.types rest)) }
        ensures place { IfOk result (λ at. slice_get self.new.types at ≡ Some (with_arguments (map (subst_of (types_at (take held self.old.types) args.now)) (map type_of types.now)) (type_at self.old.types rest))) }
        ensures kept { Keeps self.old.types self.new.types }
    {
        let items = types.as_slice();
        let mut at = rest;
        for i in (0..items.len()).rev() {
            at = self.enter_argument(alloc, at, &items[i], args, held)?;
        }
        Ok(at)
    }

    // The place of the abstract type at a place with one argument in front of its own.
    #[cycle(enter)]
    fn enter_argument(
        &mut self,
        alloc: Global,
        rest: u32,
        ty: &Ty,
        args: &[u32],
        held: usize,
    ) -> Result<u32, Memory>
        requires held { held ≤ length self.old.types }
        requires rest { rest < length self.old.types }
        requires form { IsTrue (is_abs (type_at self.old.types rest)) }
        ensures place { IfOk result (λ at. slice_get self.new.types at ≡ Some (with_argument (type_at self.old.types rest) (subst_of (types_at (take held self.old.types) args.now) (type_of ty.now)))) }
        ensures kept { Keeps self.old.types self.new.types }
    {
        let ty = self.enter(alloc, ty, args, held)?;
        self.place(Node::Argument { rest, ty })
    }

    // The place of the variant or record at a place with these parts in front of its own.
    #[cycle(enter)]
    fn enter_parts(
        &mut self,
        alloc: Global,
        rest: u32,
        parts: &Items<Part>,
        args: &[u32],
        held: usize,
    ) -> Result<u32, Memory>
        requires held { held ≤ length self.old.types }
        requires rest { rest < length self.old.types }
        requires form { IsTrue (has_parts (type_at self.old.types rest)) }
        ensures place { IfOk result (λ at. slice_get self.new.types at ≡ Some (with_parts (map (subst_piece (types_at (take held self.old.types) args.now)) (map part_of parts.now)) (type_at self.old.types rest))) }
        ensures kept { Keeps self.old.types self.new.types }
    {
        let items = parts.as_slice();
        let mut at = rest;
        for i in (0..items.len()).rev() {
            at = self.enter_part(alloc, at, &items[i], args, held)?;
        }
        Ok(at)
    }

    // The place of the variant or record at a place with one part in front of its own.
    #[cycle(enter)]
    fn enter_part(
        &mut self,
        alloc: Global,
        rest: u32,
        part: &Part,
        args: &[u32],
        held: usize,
    ) -> Result<u32, Memory>
        requires held { held ≤ length self.old.types }
        requires rest { rest < length self.old.types }
        requires form { IsTrue (has_parts (type_at self.old.types rest)) }
        ensures place { IfOk result (λ at. slice_get self.new.types at ≡ Some (with_part (type_at self.old.types rest) part.now.name (subst_of (types_at (take held self.old.types) args.now) (type_of part.now.ty)) part.now.taken)) }
        ensures kept { Keeps self.old.types self.new.types }
    {
        let ty = self.enter(alloc, &part.ty, args, held)?;
        self.place_part(alloc, rest, &part.name, ty, part.taken)
    }

    // The place of the variant or record at a place with one part in front of its own.
    fn place_part(
        &mut self,
        alloc: Global,
        rest: u32,
        name: &Name,
        ty: u32,
        taken: bool,
    ) -> Result<u32, Memory>
        requires rest { rest < length self.old.types }
        requires ty { ty < length self.old.types }
        requires form { IsTrue (has_parts (type_at self.old.types rest)) }
        ensures place { IfOk result (λ at. slice_get self.new.types at ≡ Some (with_part (type_at self.old.types rest) name.now (type_at self.old.types ty) taken)) }
        ensures kept { Keeps self.old.types self.new.types }
    {
        let name = self.enter_name(alloc, name)?;
        self.place(Node::Part {
            rest,
            name,
            ty,
            taken,
        })
    }
}
