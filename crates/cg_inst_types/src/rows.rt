// Nodes, each once, with what is known of each.
ghost use Rattle.std.specs.Prelude.{◌≡◌, ◌++◌, ◌∷◌, [], ◌^◌, ◌≤◌, length, map, slice_get, IfOk, IfSome, IfNone, OnOk, OnErr};
ghost use Rattle.cg_inst_types.specs.Places.{IsIn, Locates};

use cg_base::{Memory, Sigil, Word};
use indexmap::IndexMap;
use std::alloc::Global;
use std::marker::Model;

// A type, its parts by their places. There are no type variables: arguments stand for them. An abstract type is
// one with an argument less and that argument, in front of the others, and so for a variant or a record and its parts:
// so each node has a fixed size, and is found without memory.
#[derive(Clone, Copy, PartialEq, Eq, Hash)]
pub(crate) enum Node {
    Unit,
    Word(Word),
    Bool,
    Arrow {
        from: u32,
        to: u32,
    },
    Abs {
        name: u32,
        sigil: Sigil,
    },
    Argument {
        rest: u32,
        ty: u32,
    },
    Variant,
    Record {
        sigil: Sigil,
    },
    Part {
        rest: u32,
        name: u32,
        ty: u32,
        taken: bool,
    },
}

// What is known of a type: the place of the same type observed, how many nodes it has as a tree and how deep it is
// nested, u32::MAX standing for that many or more.
#[derive(Clone, Copy)]
pub(crate) struct Fact {
    pub(crate) observed: u32,
    pub(crate) nodes: u32,
    pub(crate) depth: u32,
}

// Nodes by their places, with what is known of each. Each node stands in it once.
#[derive(Drop)]
pub(crate) struct Rows {
    rows: IndexMap<Node, Fact>,
}

impl Model for Rows {
    ghost use Rattle.std.specs.Prelude.{List};
    ghost use Rattle.cg_inst_types.specs.declared.rows.Node.{Node as OneNode};
    ghost use Rattle.cg_inst_types.specs.declared.rows.Fact.{Fact as OneFact};

    ghost Value = { List (OneNode × OneFact) };

    ghost view = { λ r. r.rows.entries };
}

impl Rows {
    // It holds no node.
    pub(crate) fn new(alloc: Global) -> Rows
        ensures { result ≡ [] }
    {
        Rows {
            rows: IndexMap::new(alloc),
        }
    }

    // How many nodes there are.
    pub(crate) fn len(&self) -> usize
        ensures { result ≡ length self.now }
    {
        self.rows.len()
    }

    // The node at a place.
    pub(crate) fn node(&self, at: u32) -> Option<Node>
        ensures found { IfSome result (λ n. slice_get (map (λ r. r.0) self.now) at ≡ Some n) }
        ensures absent { IfNone result (length self.now ≤ at) }
    {
        match self.rows.get_index(at as usize) {
            Some((node, _)) => Some(*node),
            None => None,
        }
    }

    // What is known of the node at a place.
    pub(crate) fn fact(&self, at: u32) -> Option<Fact>
        ensures found { IfSome result (λ f. slice_get (map (λ r. r.1) self.now) at ≡ Some f) }
        ensures absent { IfNone result (length self.now ≤ at) }
    {
        match self.rows.get_index(at as usize) {
            Some((_, fact)) => Some(*fact),
            None => None,
        }
    }

    // The place of a node, if it is there.
    pub(crate) fn find(&self, node: Node) -> Option<usize>
        ensures { Locates (map (λ r. r.0) self.now) node result }
    {
        self.rows.get_index_of(&node)
    }

    // Adds a node that isn't there.
    pub(crate) fn push(&mut self, node: Node, fact: Fact) -> Result<(), Memory>
        requires absent { IsIn (map (λ r. r.0) self.old) node → ⊥ }
        ensures ok { OnOk result (self.new ≡ self.old ++ (node, fact) ∷ []) }
        ensures err { OnErr result (self.new ≡ self.old) }
    {
        self.rows.insert(node, fact)?;
        Ok(())
    }
}
