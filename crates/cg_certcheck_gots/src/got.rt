// What a part of a body comes to.
ghost use Rattle.std.specs.Prelude.{◌≡◌, IfOk, Ok};
ghost use Rattle.cg_base.specs.Types.{type_of};
ghost use Rattle.cg_certcheck_gots.specs.Gots.{got_in};
ghost use Rattle.cg_certcheck_context.specs.View.{Agrees, cursor_of};
ghost use Rattle.cg_check_pieces.specs.Boxed.{in_box};
ghost use Rattle.cg_core.specs.Derivations.{derivation_of};
ghost use Rattle.cg_core.specs.Kernels.{the_core, the_core_form};
ghost use Rattle.cg_certcheck_def.specs.Pass.{made as made_of};
ghost use Rattle.cg_typing.specs.Trees as trees;

use cg_base::{Items, Memory, Place, Ty};
use cg_cert::CertFault;
use cg_certcheck_context::{Cursor, Source};
use cg_check_uses::{leaf, one_part, three_parts, two_parts};
use cg_core::{Deriv, Form, Mark, Node, Term, Typed};
use std::alloc::Global;

/// What a part of a body comes to: its core, its derivation, and where the pass stands behind it.
pub struct Got {
    pub core: Box<Term<Typed>>,
    pub tree: Deriv,
    pub at: Cursor,
}

impl Drop for Got {
    fn drop(self) {
        let Got { core, tree, at: _ } = self;
        drop(core);
        drop(tree);
    }
}

impl Got {
    /// The type.
    pub fn ty(&self) -> &Ty
        ensures { type_of result.now ≡ type_of self.now.core.value.note.ty }
    {
        &self.core.note.ty
    }

    /// The core and the derivation.
    pub fn apart(self) -> (Box<Term<Typed>>, Deriv)
        ensures core { the_core result.0.value ≡ the_core self.core.value }
        ensures tree { derivation_of result.1 ≡ derivation_of self.tree }
    {
        let Got { core, tree, at: _ } = self;
        (core, tree)
    }
}

/// The derivation of a node, and where the pass stands behind it.
pub struct End {
    pub tree: Deriv,
    pub at: Cursor,
}

impl Drop for End {
    fn drop(self) {
        let End { tree, at: _ } = self;
        drop(tree);
    }
}

impl End {
    // A part of this core that ends so.
    fn with_core(self, core: Box<Term<Typed>>) -> Got
        ensures core { result.core ≡ core }
        ensures tree { result.tree ≡ self.tree }
        ensures at { result.at ≡ self.at }
    {
        let End { tree, at } = self;
        Got { core, tree, at }
    }
}

/// A whole node. Want of memory is its one refusal.
#[inline(never)]
pub fn finished(source: &Source, core: Term<Typed>, end: End) -> Result<Got, CertFault>
    ensures { Agrees (got_in source.now.nodes.now) result (Ok (made_of core.note.place (type_of core.note.ty) (the_core_form core.form) (derivation_of end.tree) (cursor_of source.now.nodes.now end.at))) }
{
    let core = Box::new(source.alloc, core)?;
    Ok(end.with_core(core))
}

/// A node of this type and form. Want of memory is its one refusal.
#[inline(never)]
pub fn made(
    source: &Source,
    place: Place,
    ty: Box<Ty>,
    form: Form<Typed>,
    end: End,
) -> Result<Got, CertFault>
    ensures { Agrees (got_in source.now.nodes.now) result (Ok (made_of place (in_box ty) (the_core_form form) (derivation_of end.tree) (cursor_of source.now.nodes.now end.at))) }
{
    let ty = Box::into_inner(ty);
    let note = Typed { place, ty };
    finished(source, Term { note, form }, end)
}

/// A leaf. Want of memory is its one refusal.
#[inline(never)]
pub fn leaf_of(source: &Source, core: Term<Typed>, node: Node, at: Cursor) -> Result<Got, CertFault>
    ensures { Agrees (got_in source.now.nodes.now) result (Ok (made_of core.note.place (type_of core.note.ty) (the_core_form core.form) (trees.leaf node) (cursor_of source.now.nodes.now at))) }
{
    let tree = leaf(source.alloc, node);
    finished(source, core, End { tree, at })
}

/// Equal marks. Want of memory is its one refusal.
#[inline(never)]
pub fn copied_marks(alloc: Global, marks: &[Mark]) -> Result<Items<Mark>, Memory>
    ensures { IfOk result (λ list. list ≡ marks.now) }
{
    let mut list = Items::new(alloc);
    for mark in marks {
        list.push(*mark)?;
    }
    Ok(list)
}

/// One part of a node: its core, and the node's end.
pub struct Single {
    pub part: Box<Term<Typed>>,
    pub end: End,
}

/// The one part of a node. Want of memory is its one refusal.
#[inline(never)]
pub fn alone(alloc: Global, node: Node, part: Got) -> Result<Single, Memory>
    ensures part { IfOk result (λ s. the_core s.part.value ≡ the_core part.core.value) }
    ensures tree { IfOk result (λ s. derivation_of s.end.tree ≡ trees.one node (derivation_of part.tree)) }
    ensures at { IfOk result (λ s. s.end.at ≡ part.at) }
{
    let at = part.at;
    let (part, tree) = part.apart();
    let tree = one_part(alloc, node, tree)?;
    let end = End { tree, at };
    Ok(Single { part, end })
}

/// Two parts of a node: their cores, and the node's end.
pub struct Pair {
    pub first: Box<Term<Typed>>,
    pub second: Box<Term<Typed>>,
    pub end: End,
}

/// Two parts of a node, with these marks between them. Want of memory is its one refusal.
#[inline(never)]
pub fn paired(
    alloc: Global,
    node: Node,
    marks: &[Mark],
    first: Got,
    second: Got,
) -> Result<Pair, Memory>
    ensures first { IfOk result (λ p. the_core p.first.value ≡ the_core first.core.value) }
    ensures second { IfOk result (λ p. the_core p.second.value ≡ the_core second.core.value) }
    ensures tree { IfOk result (λ p. derivation_of p.end.tree ≡ trees.two node marks.now (derivation_of first.tree) (derivation_of second.tree)) }
    ensures at { IfOk result (λ p. p.end.at ≡ second.at) }
{
    let marks = copied_marks(alloc, marks)?;
    let at = second.at;
    let (first, first_tree) = first.apart();
    let (second, second_tree) = second.apart();
    let tree = two_parts(alloc, node, marks, first_tree, second_tree)?;
    let end = End { tree, at };
    Ok(Pair { first, second, end })
}

/// A part and two branches of a node: their cores, and the node's end.
pub struct Triple {
    pub part: Box<Term<Typed>>,
    pub first: Box<Term<Typed>>,
    pub second: Box<Term<Typed>>,
    pub end: End,
}

/// A part of a node and its branches, with these marks between that and them. Want of memory is its one refusal.
#[inline(never)]
pub fn branched(
    alloc: Global,
    node: Node,
    marks: &[Mark],
    part: Got,
    first: Got,
    second: Got,
) -> Result<Triple, Memory>
    ensures part { IfOk result (λ t. the_core t.part.value ≡ the_core part.core.value) }
    ensures first { IfOk result (λ t. the_core t.first.value ≡ the_core first.core.value) }
    ensures second { IfOk result (λ t. the_core t.second.value ≡ the_core second.core.value) }
    ensures tree { IfOk result (λ t. derivation_of t.end.tree ≡ trees.three node marks.now (derivation_of part.tree) (derivation_of first.tree) (derivation_of second.tree)) }
    ensures at { IfOk result (λ t. t.end.at ≡ second.at) }
{
    let marks = copied_marks(alloc, marks)?;
    let at = second.at;
    let (part, part_tree) = part.apart();
    let (first, first_tree) = first.apart();
    let (second, second_tree) = second.apart();
    let tree = three_parts(alloc, node, marks, part_tree, first_tree, second_tree)?;
    let end = End { tree, at };
    Ok(Triple {
        part,
        first,
        second,
        end,
    })
}
