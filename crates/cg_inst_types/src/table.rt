// Tables of types.
ghost use Rattle.std.specs.Prelude.{◌≡◌, ◌<◌, ◌^◌, ◌∷◌, [], length, map, slice_get, IfOk, Some};
ghost use Rattle.cg_base.specs.Types.{type_of};
ghost use Rattle.cg_kinds.specs.Kinds.{subst};
ghost use Rattle.cg_typing.specs.Parts.{nodes as nodes_of};
ghost use Rattle.cg_inst_types.specs.Places.{Each, IsOnce, Keeps, type_at};
ghost use Rattle.cg_inst_types.specs.Layers.{capped};
ghost use Rattle.cg_inst_types.specs.Listings.{IsListing, list_at, listing};

use crate::Layers;
use cg_base::{Memory, Ty};
use std::alloc::Global;
use std::marker::Model;

/// A type by its place in a table, counted from 0.
pub type TypeId = u32;

/// Types by their places, which contracts see as the list of the types. Each type stands in it once, and with each type
/// its parts. No type in it has type variables. Besides the types that were entered it holds their bangs, and what an
/// abstract type, a variant or a record is with some of its last arguments or parts alone (docs/LANGUAGE.md, "Types").
#[derive(Drop)]
pub struct TypeTable {
    layers: Layers,
}

impl Model for TypeTable {
    ghost use Rattle.std.specs.Prelude.{List};
    ghost use Rattle.std.specs.Coded.{codes};
    ghost use Rattle.cg_base.specs.Types.{Tau};
    ghost use Rattle.cg_inst_types.specs.Codes.{coded_type};

    ghost Value = { List Tau };

    ghost coded = { Prim.hlevel (codes, coded_type (Prim.hlevel codes)) };

    ghost view = { λ t. t.layers.types };
}

impl TypeTable {
    /// A table that holds no type. It takes no memory.
    pub fn new(alloc: Global) -> TypeTable
        ensures { result ≡ [] }
    {
        TypeTable {
            layers: Layers::new(alloc),
        }
    }

    /// How many types there are: bangs and what stands for some of a type's parts count too.
    pub fn len(&self) -> usize
        ensures len { result ≡ length self.now }
        ensures small { result < 2 ^ 32 }
        ensures once { IsOnce self.now }
    {
        self.layers.len()
    }

    /// Each type stands in it once. A law: it takes no memory and does nothing.
    pub fn stands_once(&self)
        ensures { IsOnce self.now }
    {
        let _law = self.layers.len(); // its clause `once` is what is said here
    }

    /// The place of `ty` with the types at `args` for its type variables, entered with its parts where it isn't there
    /// (docs/LANGUAGE.md, "Instances"): `Var` stands for the argument itself, and `Seen` for its bang; a variable that
    /// has no argument stands for the unit type, and so does an argument that is no place of the table. What was there
    /// stays at its place. The one error is want of memory, also where there would be more than 2^32 - 1 types or names;
    /// parts that were entered before it stay.
    pub fn enter(&mut self, alloc: Global, ty: &Ty, args: &[TypeId]) -> Result<TypeId, Memory>
        ensures place { IfOk result (λ id. slice_get self.new id ≡ Some (subst (map (type_at self.old) args.now) (type_of ty.now))) }
        ensures kept { Keeps self.old self.new }
    {
        let held = self.layers.len();
        self.layers.enter(alloc, ty, args, held)
    }

    /// How many nodes the type at a place has as a tree, u32::MAX standing for that many or more; 1 where there is no
    /// such place.
    pub fn nodes(&self, at: TypeId) -> u32
        ensures { result ≡ capped (nodes_of (type_at self.now at)) }
    {
        self.layers.nodes(at)
    }

    /// The type at a place as a tree, or the unit type where there is no such place. The one error is want of memory,
    /// also where the tree would have more than 1,048,576 nodes or be nested more than 4,096 deep: this is known before
    /// anything is built.
    pub fn tree(&self, alloc: Global, at: TypeId) -> Result<Ty, Memory>
        ensures { IfOk result (λ ty. type_of ty ≡ type_at self.now at) }
    {
        self.layers.tree(alloc, at)
    }

    /// The place of the list of no types, entered where it isn't there. The one error is want of memory, as for
    /// [`TypeTable::enter`].
    pub fn enter_none(&mut self, alloc: Global) -> Result<TypeId, Memory>
        ensures place { IfOk result (λ id. slice_get self.new id ≡ Some (listing [])) }
        ensures kept { Keeps self.old self.new }
    {
        self.layers.enter_none(alloc)
    }

    /// The place of a list with one type more, in front of the others, entered where it isn't there. The one error is
    /// want of memory, as for [`TypeTable::enter`].
    pub fn enter_more(&mut self, list: TypeId, ty: TypeId) -> Result<TypeId, Memory>
        requires list { IsListing self.old list }
        requires ty { ty < length self.old }
        ensures place { IfOk result (λ id. slice_get self.new id ≡ Some (listing (type_at self.old ty ∷ list_at self.old list))) }
        ensures kept { Keeps self.old self.new }
    {
        self.layers.enter_more(list, ty)
    }

    /// The places of the types of a list, in order. The one error is want of memory.
    pub fn list(&self, alloc: Global, at: TypeId) -> Result<Vec<TypeId>, Memory>
        requires { IsListing self.now at }
        ensures types { IfOk result (λ ids. map (type_at self.now) ids.items ≡ list_at self.now at) }
        ensures within { IfOk result (λ ids. Each (λ id. id < length self.now) ids.items) }
    {
        self.layers.list(alloc, at)
    }
}
