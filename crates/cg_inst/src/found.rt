// A list of instances that grows.
ghost use Rattle.std.specs.Prelude.{◌≡◌, ◌↔◌, ◌<◌, [], length, map, slice_get, IfOk, IfSome, IsTrue, Some};
ghost use Rattle.std.specs.Option.{option_map};
ghost use Rattle.cg_base.specs.Types.{type_of};
ghost use Rattle.cg_core.specs.Kernels.{function_of, the_core};
ghost use Rattle.cg_inst.specs.Founds.{Comes, IsEntryAt, found_in};
ghost use Rattle.cg_inst.specs.Judged.{core_in, functions_in};
ghost use Rattle.cg_inst.specs.Limited.{AreSmallAt, function_at};
ghost use Rattle.cg_inst.specs.Measured.{width_in};
ghost use Rattle.cg_inst_types.specs.Listings.{IsListing, list_at, listing};
ghost use Rattle.cg_inst.specs.Lists.{front_from, gone_through, with_instance, with_instances};
ghost use Rattle.cg_inst_types.specs.Layers.{types_at};
ghost use Rattle.cg_inst_types.specs.Places.{Each, Keeps};
ghost use Rattle.cg_typing.specs.Instances.{mentioned_at, mentioned_in};

use crate::arguments::enter_types;
use crate::fault::InstFault;
use crate::keys::{Key, Keys};
use crate::nodes::{body_nodes, mention_in};
use crate::widths::{Width, are_small};
use cg_base::{Fun, Items, Limit, Memory, Ty};
use cg_core::{KFun, Term, Typed};
use cg_inst_types::{TypeId, TypeTable};
use cg_typing::Checked;
use std::alloc::Global;
use std::marker::Model;

/// The instances that were found, each once, over a table of their types.
#[derive(Drop)]
pub(crate) struct Found {
    table: TypeTable,
    keys: Keys,
}

impl Model for Found {
    ghost use Rattle.cg_inst.specs.Founds.{Keyed};
    ghost use Rattle.cg_inst.specs.Keyed.{AreKeyed};
    ghost use Rattle.std.specs.Coded.{codes};
    ghost use Rattle.cg_inst_types.specs.Codes.{coded_type};

    ghost Value = { Keyed };

    ghost coded = { Prim.hlevel (codes, coded_type (Prim.hlevel codes)) };

    ghost view = { λ f. record { types = f.table; keys = f.keys } };

    ghost invariant = { λ f. AreKeyed f.table f.keys };
}

impl Found {
    /// Nothing is found.
    pub(crate) fn new(alloc: Global) -> Found
        ensures { found_in result ≡ [] }
    {
        Found {
            table: TypeTable::new(alloc),
            keys: Keys::new(alloc),
        }
    }

    /// How many instances there are.
    pub(crate) fn len(&self) -> usize
        ensures { result ≡ length (found_in self.now) }
    {
        self.keys.len()
    }

    /// The function of the instance at a place.
    pub(crate) fn function(&self, at: usize) -> Option<Fun>
        ensures { result ≡ option_map (λ x. x.fun) (slice_get (found_in self.now) at) }
    {
        match self.keys.get(at) {
            Some(key) => Some(key.fun),
            None => None,
        }
    }

    /// Whether the instance at a place is one of this function.
    pub(crate) fn is_of(&self, fun: Fun, at: usize) -> bool
        ensures { IsTrue result ↔ (function_at (found_in self.now) at ≡ Some fun) }
    {
        match self.function(at) {
            Some(other) => other == fun,
            None => false,
        }
    }

    /// A place before this one at which an instance of this function stands, if one does.
    pub(crate) fn earlier(&self, fun: Fun, at: usize) -> Option<usize>
        ensures { IfSome result (λ i. (i < at) × (function_at (found_in self.now) i ≡ Some fun)) }
    {
        for i in 0..at {
            if self.is_of(fun, i) {
                return Some(i);
            }
        }
        None
    }

    /// Whether these widths tell that the types of the instance at a place have no more than 1,024 nodes each; so it is also where the
    /// instance is one of another function.
    pub(crate) fn fits(
        &self,
        alloc: Global,
        at: usize,
        fun: Fun,
        widths: &[Width],
    ) -> Result<bool, Memory>
        ensures { IfOk result (λ fits. IsTrue fits ↔ AreSmallAt fun (map width_in widths.now) (slice_get (found_in self.now) at)) }
    {
        if !self.is_of(fun, at) {
            return Ok(true);
        }
        match self.entry(alloc, at)? {
            Some((_, types)) => Ok(are_small(&self.table, widths, types.as_slice())),
            None => Ok(true),
        }
    }

    /// The instance at a place: its function, and the places of its types.
    pub(crate) fn entry(
        &self,
        alloc: Global,
        at: usize,
    ) -> Result<Option<(Fun, Vec<TypeId>)>, Memory>
        ensures { IfOk result (IsEntryAt self.now at) }
    {
        match self.keys.get(at) {
            Some(key) => Ok(Some((key.fun, self.table.list(alloc, key.types)?))),
            None => Ok(None),
        }
    }

    /// How many nodes the types of the instance at a place have together, as trees.
    pub(crate) fn argument_nodes(&self, alloc: Global, at: usize) -> Result<u64, Memory> {
        let mut total: u64 = 0;
        if let Some((_, types)) = self.entry(alloc, at)? {
            for ty in types {
                total = total.saturating_add(u64::from(self.table.nodes(ty)));
            }
        }
        Ok(total)
    }

    /// The types at these places as trees. Want of memory also where one would have more than 1,048,576 nodes.
    pub(crate) fn trees(&self, alloc: Global, types: &[TypeId]) -> Result<Items<Ty>, Memory>
        ensures { IfOk result (λ ts. map type_of ts ≡ types_at self.now.types types.now) }
    {
        let mut trees = Items::new(alloc);
        for at in types {
            trees.push(self.table.tree(alloc, *at)?)?;
        }
        Ok(trees)
    }

    /// The place of no types.
    fn enter_none(&mut self, alloc: Global) -> Result<TypeId, Memory>
        ensures place { IfOk result (λ at. slice_get self.new.types at ≡ Some (listing [])) }
        ensures found { found_in self.new ≡ found_in self.old }
    {
        self.table.enter_none(alloc)
    }

    /// The functions without type variables, where nothing was found.
    pub(crate) fn enter_front(&mut self, alloc: Global, functions: &[KFun]) -> Result<(), InstFault>
        requires { found_in self.old ≡ [] }
        ensures { Comes self.new (front_from 0 (map function_of functions.now)) result }
    {
        let none = self.enter_none(alloc)?;
        for (at, function) in functions.iter().enumerate() {
            let Ok(at) = u32::try_from(at) else {
                return Err(InstFault::Memory);
            };
            if function.vars.len() == 0 {
                self.enter(Fun::User(at), none)?;
            }
        }
        Ok(())
    }

    /// What the instance at a place mentions.
    pub(crate) fn go_through_entry(
        &mut self,
        alloc: Global,
        checked: &Checked,
        at: usize,
    ) -> Result<(), InstFault>
        ensures { Comes self.new (gone_through (functions_in checked.now) (core_in checked.now) (found_in self.old) (slice_get (found_in self.old) at)) result }
    {
        match self.entry(alloc, at)? {
            Some((fun, types)) => {
                let nodes = body_nodes(alloc, checked, fun)?;
                self.go_through(alloc, nodes.as_slice(), types.as_slice())
            }
            None => Ok(()),
        }
    }

    /// One more instance, if it isn't there.
    fn enter(&mut self, fun: Fun, types: u32) -> Result<(), InstFault>
        requires { IsListing self.old.types types }
        ensures found { Comes self.new (with_instance (found_in self.old) (record { fun = fun; types = list_at self.old.types types })) result }
        ensures types { self.new.types ≡ self.old.types }
    {
        self.table.stands_once();
        self.keys.enter(Key { fun, types })?;
        if self.keys.len() > 4096 {
            return Err(InstFault::Limit(Limit::Instances));
        }
        Ok(())
    }

    /// What a node mentions, with the types at these places for the type variables.
    fn mention(&mut self, alloc: Global, node: &Term<Typed>, types: &[u32]) -> Result<(), InstFault>
        requires { Each (λ at. at < length self.old.types) types.now }
        ensures found { Comes self.new (with_instances (found_in self.old) (mentioned_at (types_at self.old.types types.now) (the_core node.now))) result }
        ensures kept { Keeps self.old.types self.new.types }
    {
        match mention_in(node) {
            Some((fun, args)) => {
                let list = enter_types(alloc, &mut self.table, args, types)?;
                self.enter(fun, list)
            }
            None => Ok(()),
        }
    }

    /// What these nodes mention, in order.
    pub(crate) fn go_through(
        &mut self,
        alloc: Global,
        nodes: &[&Term<Typed>],
        types: &[u32],
    ) -> Result<(), InstFault>
        requires { Each (λ at. at < length self.old.types) types.now }
        ensures found { Comes self.new (with_instances (found_in self.old) (mentioned_in (types_at self.old.types types.now) (map (λ node. the_core node.now) nodes.now))) result }
        ensures kept { Keeps self.old.types self.new.types }
    {
        for node in nodes {
            self.mention(alloc, node, types)?;
        }
        Ok(())
    }
}
