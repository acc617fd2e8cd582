// What the C of a list of instances needs: the list, the structs of its types, and the arrow types of its calls through function values.
#![tactic(auto, using(crate::proofs::CollectSteps::collect_steps))]

ghost use Rattle.std.specs.Prelude.{◌≡◌, [], ◌∷◌, ◌++◌, map, IfOk, MatchOption, OnOk};
ghost use Rattle.std.specs.List.{flat_map};
ghost use Rattle.cg_base.specs.Types.{part_of, to_parts, type_of};
ghost use Rattle.cg_core.specs.Kernels.{the_core};
ghost use Rattle.cg_inst.specs.Views.{instance_of};
ghost use Rattle.cg_typing.specs.Parts.{taken_by};
ghost use Rattle.cg_typing.specs.Rules.{type_at};
ghost use Rattle.cg_update.specs.Turns.{fields_in};
ghost use Rattle.cg_lower.specs.Collected.{arrows_of, called_at, Grows, part_types, parts_of_arrows, turned_by, types_of, value_called};
ghost use Rattle.cg_lower.specs.Results.{IsCollected};
ghost use Rattle.cg_lower.specs.Copies.{copies_of, pair_of};

use crate::nodes::nodes_of_body;
use cg_base::{Fun, Items, Memory, Part, Ty};
use cg_core::{Form, Term, Typed};
use cg_eval_operations::is_iterator;
use cg_lower_tables::{Places, Structs};
use cg_mono::{Copy, Mono};
use std::alloc::Global;

/// What is known of a list of instances while its functions are lowered: the list with the arrow types of its calls through function values,
/// and the structs of its types (docs/LANGUAGE.md, "The C of instances").
#[derive(Drop)]
pub struct Collected {
    pub places: Places,
    pub structs: Structs,
}

// The type of the part at a place.
fn part_type(parts: &Items<Part>, at: usize) -> Option<&Ty>
    ensures { MatchOption result (part_types at (to_parts (map part_of parts.now)) ≡ []) (λ t. part_types at (to_parts (map part_of parts.now)) ≡ type_of t.now ∷ []) }
{
    match parts.get(at) {
        Some(part) => Some(&part.ty),
        None => None,
    }
}

// The type of the field at a place of what a function of an arrow type takes.
fn taken_field(ty: &Ty, at: usize) -> Option<&Ty>
    ensures { MatchOption result (part_types at (fields_in (taken_by (type_of ty.now))) ≡ []) (λ t. part_types at (fields_in (taken_by (type_of ty.now))) ≡ type_of t.now ∷ []) }
{
    match ty {
        Ty::Arrow(from, _) => match &**from {
            Ty::Fields(parts, _) => part_type(parts, at),
            _ => None,
        },
        _ => None,
    }
}

// The arrow type of the function that an iterator of an arrow type calls.
fn turned(fun: Fun, ty: &Ty) -> Option<&Ty>
    ensures { MatchOption result (turned_by fun (type_of ty.now) ≡ []) (λ t. turned_by fun (type_of ty.now) ≡ type_of t.now ∷ []) }
{
    match fun {
        Fun::User(_) => None,
        Fun::Lib(lib) => {
            if is_iterator(lib) {
                taken_field(ty, 3)
            } else {
                None
            }
        }
    }
}

impl Collected {
    // The structs of a type.
    fn add_type(&mut self, alloc: Global, ty: &Ty) -> Result<(), Memory>
        ensures { OnOk result (Grows self.old.places self.new.places self.old.structs.table self.new.structs.table (type_of ty.now ∷ []) [] []) }
    {
        self.structs.add(alloc, ty)?;
        Ok(())
    }

    // The structs of what functions of an arrow type take and give.
    fn add_ends(&mut self, alloc: Global, ty: &Ty) -> Result<(), Memory>
        ensures { OnOk result (Grows self.old.places self.new.places self.old.structs.table self.new.structs.table (parts_of_arrows (type_of ty.now ∷ [])) [] []) }
    {
        match ty {
            Ty::Arrow(from, to) => {
                self.add_type(alloc, from)?;
                self.add_type(alloc, to)?;
                Ok(())
            }
            _ => {
                self.add_type(alloc, &Ty::Unit)?;
                self.add_type(alloc, &Ty::Unit)?;
                Ok(())
            }
        }
    }

    // An arrow type of calls.
    fn add_arrow(&mut self, alloc: Global, ty: &Ty) -> Result<(), Memory>
        ensures { OnOk result (Grows self.old.places self.new.places self.old.structs.table self.new.structs.table [] (type_of ty.now ∷ []) []) }
    {
        self.places.add_arrow(alloc, ty)?;
        Ok(())
    }

    // What a call needs: the arrow type of the function, where this isn't named.
    fn add_call(&mut self, alloc: Global, function: &Term<Typed>) -> Result<(), Memory>
        ensures { OnOk result (Grows self.old.places self.new.places self.old.structs.table self.new.structs.table [] (value_called (the_core function.now)) []) }
    {
        match &function.form {
            Form::Fun(_, _) => Ok(()),
            _ => self.add_arrow(alloc, &function.note.ty),
        }
    }

    // What a node needs.
    fn add_node(&mut self, alloc: Global, node: &Term<Typed>) -> Result<(), Memory>
        ensures { OnOk result (Grows self.old.places self.new.places self.old.structs.table self.new.structs.table (type_at (the_core node.now) ∷ []) (called_at (the_core node.now)) []) }
    {
        self.add_type(alloc, &node.note.ty)?;
        match &node.form {
            Form::App(function, _) => {
                self.add_call(alloc, function)?;
                Ok(())
            }
            _ => Ok(()),
        }
    }

    // What the nodes of a body need.
    fn add_nodes(&mut self, alloc: Global, nodes: &[&Term<Typed>]) -> Result<(), Memory>
        ensures { OnOk result (Grows self.old.places self.new.places self.old.structs.table self.new.structs.table
            (map type_at (map (λ node. the_core node.now) nodes.now)) (flat_map called_at (map (λ node. the_core node.now) nodes.now)) []) }
    {
        for node in nodes {
            self.add_node(alloc, node)?;
        }
        Ok(())
    }

    // What the turns of an iterator need.
    fn add_turns(&mut self, alloc: Global, fun: Fun, ty: &Ty) -> Result<(), Memory>
        ensures { OnOk result (Grows self.old.places self.new.places self.old.structs.table self.new.structs.table
            (parts_of_arrows (turned_by fun (type_of ty.now))) (turned_by fun (type_of ty.now)) []) }
    {
        match turned(fun, ty) {
            Some(turn) => {
                self.add_ends(alloc, turn)?;
                self.add_arrow(alloc, turn)?;
                Ok(())
            }
            None => Ok(()),
        }
    }

    // An instance, and what it needs.
    fn add_copy(&mut self, alloc: Global, copy: &Copy) -> Result<(), Memory>
        ensures { OnOk result (Grows self.old.places self.new.places self.old.structs.table self.new.structs.table
            (types_of (pair_of copy.now)) (arrows_of (pair_of copy.now)) (instance_of copy.now.instance ∷ [])) }
    {
        self.places.push(alloc, &copy.instance)?;
        self.add_ends(alloc, &copy.ty)?;
        self.add_turns(alloc, copy.instance.fun, &copy.ty)?;
        let nodes = nodes_of_body(alloc, copy.core())?;
        self.add_nodes(alloc, nodes.as_slice())?;
        Ok(())
    }
}

/// What the C of a list of instances needs. The one error is want of memory.
pub fn collect(alloc: Global, mono: &Mono) -> Result<Collected, Memory>
    ensures { IfOk result (λ c. IsCollected (copies_of mono.now) c) }
{
    let mut collected = Collected {
        places: Places::new(alloc),
        structs: Structs::new(alloc),
    };
    for copy in mono.as_slice() {
        collected.add_copy(alloc, copy)?;
    }
    Ok(collected)
}
