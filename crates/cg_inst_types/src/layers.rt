// The layers of types, each made from those before it.
ghost use Rattle.std.specs.Prelude.{◌≡◌, ◌⊎◌, ◌+◌, ◌<◌, ◌≤◌, ◌++◌, ◌∷◌, [], length, map, slice_get, IfOk, IfSome, IfNone, OnOk, OnErr, Some, None};
ghost use Rattle.cg_base.specs.Types.{Tau};
ghost use Rattle.cg_kinds.specs.Kinds.{bang as bang_of, bang_sigil};
ghost use Rattle.cg_typing.specs.Parts.{nodes};
ghost use Rattle.cg_inst_types.specs.Places.{IsIn, IsOnce, Keeps, Locates, name_at, type_at};
ghost use Rattle.cg_inst_types.specs.Layers.{Fits, IsKnown, capped, made};

use crate::{Fact, Names, Node, Rows};
use cg_base::{Memory, Name, Sigil};
use std::alloc::Global;
use std::marker::Model;

// Types and their names by their places: each stands once, and with each type its parts.
#[derive(Drop)]
pub(crate) struct Layers {
    names: Names,
    rows: Rows,
}

impl Model for Layers {
    ghost use Rattle.std.specs.Coded.{codes};
    ghost use Rattle.cg_inst_types.specs.Codes.{coded_type};
    ghost use Rattle.cg_inst_types.specs.Layers.{IsSound, Shared, shared_of};

    ghost Value = { Shared };

    ghost coded = { Prim.hlevel (codes, coded_type (Prim.hlevel codes)) };

    ghost view = { λ l. shared_of l.names l.rows };

    ghost invariant = { λ l. IsSound l.names l.rows };
}

impl Layers {
    // It holds no type.
    pub(crate) fn new(alloc: Global) -> Layers
        ensures { result.types ≡ [] }
    {
        Layers {
            names: Names::new(alloc),
            rows: Rows::new(alloc),
        }
    }

    // How many types there are.
    pub(crate) fn len(&self) -> usize
        ensures len { result ≡ length self.now.types }
        ensures small { length self.now.types < 4294967296 }
        ensures once { IsOnce self.now.types }
    {
        let _names = &self.names;
        self.rows.len()
    }

    // The bytes of the name at a place.
    pub(crate) fn name(&self, at: u32) -> &[u8]
        ensures { result.now ≡ name_at self.now.names at }
    {
        self.names.bytes(at)
    }

    // The node of the type at a place.
    pub(crate) fn node(&self, at: u32) -> Option<Node>
        ensures found { IfSome result (λ n. slice_get self.now.types at ≡ Some (made self.now.names self.now.types n)) }
        ensures fits { IfSome result (λ n. Fits self.now.names self.now.types n) }
        ensures absent { IfNone result (slice_get self.now.types at ≡ None) }
    {
        self.rows.node(at)
    }

    // What is known of the type at a place.
    fn fact(&self, at: u32) -> Option<Fact>
        ensures found { IfSome result (λ f. IsKnown self.now.types (type_at self.now.types at) f) }
        ensures absent { IfNone result (slice_get self.now.types at ≡ None) }
    {
        self.rows.fact(at)
    }

    // The place of a node's type, if it is there.
    pub(crate) fn find_node(&self, node: Node) -> Option<u32>
        requires { Fits self.now.names self.now.types node }
        ensures place { Locates self.now.types (made self.now.names self.now.types node) result }
        ensures names_once { IsOnce self.now.names }
        ensures once { IsOnce self.now.types }
    {
        match self.rows.find(node) {
            Some(at) => Some(at as u32),
            None => None,
        }
    }

    // The place of a name, entered where it isn't there.
    pub(crate) fn enter_name(&mut self, alloc: Global, name: &Name) -> Result<u32, Memory>
        ensures place { IfOk result (λ at. slice_get self.new.names at ≡ Some name.now) }
        ensures kept { Keeps self.old.names self.new.names }
        ensures types { self.new.types ≡ self.old.types }
    {
        self.names.enter(alloc, name.bytes())
    }

    // The place of a node's type, entered with its bang where it isn't there.
    pub(crate) fn place(&mut self, node: Node) -> Result<u32, Memory>
        requires { Fits self.old.names self.old.types node }
        ensures place { IfOk result (λ at. slice_get self.new.types at ≡ Some (made self.old.names self.old.types node)) }
        ensures kept { Keeps self.old.types self.new.types }
        ensures names { self.new.names ≡ self.old.names }
    {
        if let Some(at) = self.find_node(node) {
            return Ok(at);
        }
        let observed = self.observed_node(node);
        if observed == node {
            return self.add_observed(node);
        }
        let bang = self.place_observed(observed)?;
        self.add(node, bang)
    }

    // The place of the type of a node that is its own bang, entered where it isn't there.
    fn place_observed(&mut self, node: Node) -> Result<u32, Memory>
        requires fits { Fits self.old.names self.old.types node }
        requires observed { bang_of (made self.old.names self.old.types node) ≡ made self.old.names self.old.types node }
        ensures place { IfOk result (λ at. slice_get self.new.types at ≡ Some (made self.old.names self.old.types node)) }
        ensures others { (t : Tau) → IsIn self.new.types t → IsIn self.old.types t ⊎ (t ≡ made self.old.names self.old.types node) }
        ensures kept { Keeps self.old.types self.new.types }
        ensures names { self.new.names ≡ self.old.names }
    {
        match self.find_node(node) {
            Some(at) => Ok(at),
            None => self.add_observed(node),
        }
    }

    // Adds the type of a node that is its own bang and isn't there.
    fn add_observed(&mut self, node: Node) -> Result<u32, Memory>
        requires fits { Fits self.old.names self.old.types node }
        requires absent { IsIn self.old.types (made self.old.names self.old.types node) → ⊥ }
        requires observed { bang_of (made self.old.names self.old.types node) ≡ made self.old.names self.old.types node }
        ensures place { IfOk result (λ at. at ≡ length self.old.types) }
        ensures types { OnOk result (self.new.types ≡ self.old.types ++ made self.old.names self.old.types node ∷ []) }
        ensures err { OnErr result (self.new.types ≡ self.old.types) }
        ensures names { self.new.names ≡ self.old.names }
    {
        let fact = Fact {
            observed: self.len() as u32,
            nodes: self.size(node),
            depth: self.nesting(node),
        };
        self.push(node, fact)
    }

    // Adds the type of a node that isn't there, where its bang is.
    fn add(&mut self, node: Node, bang: u32) -> Result<u32, Memory>
        requires fits { Fits self.old.names self.old.types node }
        requires absent { IsIn self.old.types (made self.old.names self.old.types node) → ⊥ }
        requires observed { slice_get self.old.types bang ≡ Some (bang_of (made self.old.names self.old.types node)) }
        ensures place { IfOk result (λ at. at ≡ length self.old.types) }
        ensures types { OnOk result (self.new.types ≡ self.old.types ++ made self.old.names self.old.types node ∷ []) }
        ensures err { OnErr result (self.new.types ≡ self.old.types) }
        ensures names { self.new.names ≡ self.old.names }
    {
        let fact = Fact {
            observed: bang,
            nodes: self.size(node),
            depth: self.nesting(node),
        };
        self.push(node, fact)
    }

    // Adds the type of a node that isn't there, with what is known of it.
    fn push(&mut self, node: Node, fact: Fact) -> Result<u32, Memory>
        requires fits { Fits self.old.names self.old.types node }
        requires absent { IsIn self.old.types (made self.old.names self.old.types node) → ⊥ }
        requires known { IsKnown (self.old.types ++ made self.old.names self.old.types node ∷ []) (made self.old.names self.old.types node) fact }
        ensures place { IfOk result (λ at. at ≡ length self.old.types) }
        ensures types { OnOk result (self.new.types ≡ self.old.types ++ made self.old.names self.old.types node ∷ []) }
        ensures err { OnErr result (self.new.types ≡ self.old.types) }
        ensures names { self.new.names ≡ self.old.names }
    {
        let at = self.rows.len();
        if at >= u32::MAX as usize {
            return Err(Memory);
        }
        self.rows.push(node, fact)?;
        Ok(at as u32)
    }

    // The place of the bang of the type at a place.
    pub(crate) fn observed(&self, at: u32) -> u32
        requires { at < length self.now.types }
        ensures { slice_get self.now.types result ≡ Some (bang_of (type_at self.now.types at)) }
    {
        match self.fact(at) {
            Some(fact) => fact.observed,
            None => at,
        }
    }

    // The node of the bang of a node's type.
    fn observed_node(&self, node: Node) -> Node
        requires { Fits self.now.names self.now.types node }
        ensures observed { made self.now.names self.now.types result ≡ bang_of (made self.now.names self.now.types node) }
        ensures fits { Fits self.now.names self.now.types result }
    {
        match node {
            Node::Unit => Node::Unit,
            Node::Word(word) => Node::Word(word),
            Node::Bool => Node::Bool,
            Node::Arrow { from, to } => Node::Arrow { from, to },
            Node::Variant => Node::Variant,
            Node::Abs { name, sigil } => Node::Abs {
                name,
                sigil: observed_sigil(sigil),
            },
            Node::Argument { rest, ty } => Node::Argument {
                rest: self.observed(rest),
                ty: self.observed(ty),
            },
            Node::Record { sigil } => Node::Record {
                sigil: observed_sigil(sigil),
            },
            Node::Part {
                rest,
                name,
                ty,
                taken,
            } => Node::Part {
                rest: self.observed(rest),
                name,
                ty: self.observed(ty),
                taken,
            },
        }
    }

    // How many nodes the type at a place has as a tree, u32::MAX standing for that many or more; 1 where there is no
    // such place.
    pub(crate) fn nodes(&self, at: u32) -> u32
        ensures { result ≡ capped (nodes (type_at self.now.types at)) }
    {
        match self.fact(at) {
            Some(fact) => fact.nodes,
            None => 1,
        }
    }

    // How deep the type at a place is nested, u32::MAX standing for that deep or deeper.
    pub(crate) fn depth(&self, at: u32) -> u32 {
        match self.fact(at) {
            Some(fact) => fact.depth,
            None => 1,
        }
    }

    // How many nodes a node's type has.
    fn size(&self, node: Node) -> u32
        requires { Fits self.now.names self.now.types node }
        ensures { result ≡ capped (nodes (made self.now.names self.now.types node)) }
    {
        match node {
            Node::Arrow { from, to } => {
                let both = self.nodes(from).saturating_add(self.nodes(to));
                both.saturating_add(1)
            }
            Node::Argument { rest, ty } => self.nodes(rest).saturating_add(self.nodes(ty)),
            Node::Part {
                rest,
                name: _,
                ty,
                taken: _,
            } => self.nodes(rest).saturating_add(self.nodes(ty)),
            _ => 1,
        }
    }

    // How deep a node's type is nested.
    fn nesting(&self, node: Node) -> u32 {
        match node {
            Node::Arrow { from, to } => self.depth(from).max(self.depth(to)).saturating_add(1),
            Node::Argument { rest, ty } => self.depth(rest).max(self.depth(ty).saturating_add(1)),
            Node::Part {
                rest,
                name: _,
                ty,
                taken: _,
            } => self.depth(rest).max(self.depth(ty).saturating_add(1)),
            _ => 1,
        }
    }
}

fn observed_sigil(sigil: Sigil) -> Sigil
    ensures { result ≡ bang_sigil sigil }
{
    match sigil {
        Sigil::W => Sigil::R,
        Sigil::R => Sigil::R,
        Sigil::U => Sigil::U,
    }
}
