// What lowering looks up by name.
#![tactic(auto, using(crate::proofs::ArrowSteps::arrow_steps))]

ghost use Rattle.std.specs.Prelude.{◌≡◌, ◌≤◌, [], ◌∷◌, ◌++◌, length, map, unwrap_or, IfOk, OnErr, OnOk};
ghost use Rattle.cg_base.specs.Types.{type_of};
ghost use Rattle.cg_core.specs.Terms.{arg_of};
ghost use Rattle.cg_inst.specs.Views.{instance_of};
ghost use Rattle.cg_lower_def.specs.Lowered.{arrow_number};
ghost use Rattle.cg_typing.specs.Functions.{arg_types};
ghost use Rattle.cg_update.specs.Updates.{place_of};
ghost use Rattle.cg_lower_tables.specs.Found.{with_arrow};

use crate::adds::{add_instance, add_type};
use crate::hints::{hinted_number, hinted_place, number_hint, place_hint};
use crate::keys::{Key, key_of, place_in};
use crate::walks::written_types;
use cg_base::{Fun, Items, Memory, Ty};
use cg_core::TyArg;
use cg_inst::Instance;
use cg_inst_types::TypeTable;
use indexmap::IndexMap;
use std::alloc::Global;
use std::marker::Model;

/// What lowering looks up by name: instances in their list, and arrow types among those of calls through function values
/// (docs/LANGUAGE.md, "The C of instances"). Contracts see the two lists. A look-up takes the time of one in a map, and of comparing the types.
pub struct Places {
    table: TypeTable,
    list: Items<Instance>,
    places: IndexMap<Key, u32>,
    arrows: Items<Ty>,
    numbers: IndexMap<u32, u32>,
}

impl Drop for Places {
    fn drop(self) {
        let Places {
            table,
            list,
            places,
            arrows,
            numbers,
        } = self;
        drop(table);
        drop(list);
        drop(places);
        drop(arrows);
        drop(numbers);
    }
}

impl Model for Places {
    ghost use Rattle.std.specs.Prelude.{map};
    ghost use Rattle.std.specs.Coded.{codes};
    ghost use Rattle.cg_base.specs.Types.{type_of};
    ghost use Rattle.cg_inst.specs.Views.{instance_of};
    ghost use Rattle.cg_inst_types.specs.Codes.{coded_type};
    ghost use Rattle.cg_lower_tables.specs.Found.{Known, known_of};
    ghost use Rattle.cg_lower_tables.specs.Hints.{IsSound};

    ghost Value = { Known };

    ghost coded = { Prim.hlevel (codes, coded_type (Prim.hlevel codes)) };

    ghost view = { λ p. known_of p.list p.arrows };

    ghost invariant = { λ p. IsSound p.table (map instance_of p.list) p.places.entries (map type_of p.arrows) p.numbers.entries };
}

impl Places {
    /// No instances and no arrow types. It takes no memory.
    pub fn new(alloc: Global) -> Places
        ensures list { result.list ≡ [] }
        ensures arrows { result.arrows ≡ [] }
    {
        Places {
            table: TypeTable::new(alloc),
            list: Items::new(alloc),
            places: IndexMap::new(alloc),
            arrows: Items::new(alloc),
            numbers: IndexMap::new(alloc),
        }
    }

    /// One instance more, at the end of the list. The one error is want of memory, also where there would be more than 2^32, or too many
    /// different types; the list stays as it was.
    pub fn push(&mut self, alloc: Global, instance: &Instance) -> Result<(), Memory>
        ensures list { OnOk result (self.new.list ≡ self.old.list ++ instance_of instance.now ∷ []) }
        ensures err { OnErr result (self.new.list ≡ self.old.list) }
        ensures arrows { self.new.arrows ≡ self.old.arrows }
    {
        add_instance(
            alloc,
            &mut self.table,
            &mut self.list,
            &mut self.places,
            instance,
        )
    }

    /// One arrow type more, at the end of these, if it isn't among them. The one error is want of memory, also where there would be more
    /// than 2^32, or too many different types; they stay as they were.
    pub fn add_arrow(&mut self, alloc: Global, ty: &Ty) -> Result<(), Memory>
        ensures arrows { OnOk result (self.new.arrows ≡ with_arrow self.old.arrows (type_of ty.now)) }
        ensures err { OnErr result (self.new.arrows ≡ self.old.arrows) }
        ensures list { self.new.list ≡ self.old.list }
    {
        add_type(
            alloc,
            &mut self.table,
            &mut self.arrows,
            &mut self.numbers,
            ty,
        )
    }

    /// Where the instance of a function at these types first stands in the list; 0, where it does not. The one error is want of memory.
    pub fn place(&mut self, alloc: Global, fun: Fun, args: &Items<TyArg>) -> Result<usize, Memory>
        ensures place { IfOk result (λ k. k ≡ unwrap_or (place_of (record { fun = fun; types = arg_types (map arg_of args.now) }) self.old.list) 0) }
        ensures kept { self.new ≡ self.old }
    {
        let instance = Instance {
            fun,
            args: written_types(alloc, args)?,
        };
        let found = self.find(alloc, &instance);
        drop(instance);
        found
    }

    // Where an instance first stands in the list; 0, where it does not.
    fn find(&mut self, alloc: Global, instance: &Instance) -> Result<usize, Memory>
        ensures place { IfOk result (λ k. k ≡ unwrap_or (place_of (instance_of instance.now) self.old.list) 0) }
        ensures kept { self.new ≡ self.old }
    {
        let key = key_of(alloc, &mut self.table, instance)?;
        self.table.stands_once();
        let hint = place_hint(&self.places, key);
        Ok(hinted_place(self.list.as_slice(), hint, instance))
    }

    /// Where an arrow type stands among those of calls through function values; past their end, where it does not. The one error is want of
    /// memory.
    pub fn arrow(&mut self, alloc: Global, ty: &Ty) -> Result<usize, Memory>
        ensures number { IfOk result (λ j. j ≡ arrow_number self.old.arrows (type_of ty.now)) }
        ensures kept { self.new ≡ self.old }
    {
        let key = place_in(alloc, &mut self.table, ty)?;
        self.table.stands_once();
        let hint = number_hint(&self.numbers, key);
        Ok(hinted_number(self.arrows.as_slice(), hint, ty))
    }

    /// The arrow types of calls through function values, in order.
    pub fn arrow_types(&self) -> &[Ty]
        ensures { map type_of result.now ≡ self.now.arrows }
    {
        self.arrows.as_slice()
    }

    /// How many instances there are.
    pub fn len(&self) -> usize
        ensures len { result ≡ length self.now.list }
        ensures few { (length self.now.list ≤ 4294967296) × (length self.now.arrows ≤ 4294967296) }
    {
        self.list.len()
    }
}
