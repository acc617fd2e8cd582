// What a part of a body comes to.
ghost use Rattle.std.specs.Prelude.{◌≡◌, IfOk, Ok, []};
ghost use Rattle.cg_base.specs.Types.{type_of};
ghost use Rattle.cg_core.specs.Derivations.{derivation, derivation_of, done};
ghost use Rattle.cg_core.specs.Kernels.{the_core, the_core_form};
ghost use Rattle.cg_check_def.specs.Pass.{made as made_of};
ghost use Rattle.cg_check_context.specs.View.{Agrees};
ghost use Rattle.cg_check_pieces.specs.Boxed.{in_box};
ghost use Rattle.cg_check_uses.specs.Marks as splits;
ghost use Rattle.cg_check_uses.specs.Uses as tables;
ghost use Rattle.cg_check_nodes.specs.Gots.{got_of};

use cg_base::{Items, Memory, Place, Ty};
use cg_check_context::Stop;
use cg_check_uses::{Use, join, leaf, marks_of_uses, one_part, three_parts, two_parts};
use cg_core::{Deriv, Form, Mark, Node, Term, Typed};
use std::alloc::Global;

/// What a part of a body comes to: its core, its derivation where just what it touches is present, and what it does with each variable
/// of its context.
pub struct Got {
    pub core: Box<Term<Typed>>,
    pub tree: Deriv,
    pub uses: Vec<Use>,
}

impl Drop for Got {
    fn drop(self) {
        let Got { core, tree, uses } = self;
        drop(core);
        drop(tree);
        drop(uses);
    }
}

impl Got {
    /// The type.
    pub fn ty(&self) -> &Ty
        ensures { type_of result.now ≡ (got_of self.now).ty }
    {
        &self.core.note.ty
    }

    /// Its parts.
    pub fn apart(self) -> (Box<Term<Typed>>, Deriv, Vec<Use>)
        ensures core { the_core result.0.value ≡ (got_of self).core }
        ensures tree { derivation_of result.1 ≡ (got_of self).tree }
        ensures uses { result.2.items ≡ (got_of self).uses }
    {
        let Got { core, tree, uses } = self;
        (core, tree, uses)
    }
}

/// A whole node. Want of memory is its one refusal.
#[inline(never)]
pub fn finished(alloc: Global, core: Term<Typed>, tree: Deriv, uses: Vec<Use>) -> Result<Got, Stop>
    ensures { Agrees got_of result (Ok (made_of core.note.place (type_of core.note.ty) (the_core_form core.form) (derivation_of tree) uses.items)) }
{
    let core = Box::new(alloc, core)?;
    Ok(Got { core, tree, uses })
}

/// A node of this type and form. Want of memory is its one refusal.
#[inline(never)]
pub fn made(
    alloc: Global,
    place: Place,
    ty: Box<Ty>,
    form: Form<Typed>,
    tree: Deriv,
    uses: Vec<Use>,
) -> Result<Got, Stop>
    ensures { Agrees got_of result (Ok (made_of place (in_box ty) (the_core_form form) (derivation_of tree) uses.items)) }
{
    let ty = Box::into_inner(ty);
    let note = Typed { place, ty };
    finished(alloc, Term { note, form }, tree, uses)
}

/// A leaf, which does this with each variable. Want of memory is its one refusal.
#[inline(never)]
pub fn leaf_of(alloc: Global, core: Term<Typed>, node: Node, uses: Vec<Use>) -> Result<Got, Stop>
    ensures { Agrees got_of result (Ok (made_of core.note.place (type_of core.note.ty) (the_core_form core.form) (derivation node [] done) uses.items)) }
{
    finished(alloc, core, leaf(alloc, node), uses)
}

/// One part of a node: its core, and the node's derivation and uses.
pub struct Single {
    pub part: Box<Term<Typed>>,
    pub tree: Deriv,
    pub uses: Vec<Use>,
}

/// The one part of a node. Want of memory is its one refusal.
#[inline(never)]
pub fn alone(alloc: Global, node: Node, part: Got) -> Result<Single, Memory>
    ensures part { IfOk result (λ s. the_core s.part.value ≡ (got_of part).core) }
    ensures tree { IfOk result (λ s. derivation_of s.tree ≡ splits.one_part node (got_of part).tree) }
    ensures uses { IfOk result (λ s. s.uses.items ≡ (got_of part).uses) }
{
    let (part, tree, uses) = part.apart();
    let tree = one_part(alloc, node, tree)?;
    Ok(Single { part, tree, uses })
}

/// Two parts of a node: their cores, and the node's derivation and uses.
pub struct Pair {
    pub first: Box<Term<Typed>>,
    pub second: Box<Term<Typed>>,
    pub tree: Deriv,
    pub uses: Vec<Use>,
}

/// Two parts of a node, with these marks between them and these uses of both. Want of memory is its one refusal.
#[inline(never)]
pub fn paired(
    alloc: Global,
    node: Node,
    marks: Items<Mark>,
    uses: Vec<Use>,
    first: Got,
    second: Got,
) -> Result<Pair, Memory>
    ensures first { IfOk result (λ p. the_core p.first.value ≡ (got_of first).core) }
    ensures second { IfOk result (λ p. the_core p.second.value ≡ (got_of second).core) }
    ensures tree { IfOk result (λ p. derivation_of p.tree ≡ splits.two_parts node marks (got_of first).tree (got_of second).tree) }
    ensures uses { IfOk result (λ p. p.uses.items ≡ uses.items) }
{
    let (first, first_tree, _) = first.apart();
    let (second, second_tree, _) = second.apart();
    let tree = two_parts(alloc, node, marks, first_tree, second_tree)?;
    Ok(Pair {
        first,
        second,
        tree,
        uses,
    })
}

/// Two parts of a node, one after the other. Want of memory is its one refusal.
#[inline(never)]
pub fn in_turn(alloc: Global, node: Node, first: Got, second: Got) -> Result<Pair, Memory>
    ensures first { IfOk result (λ p. the_core p.first.value ≡ (got_of first).core) }
    ensures second { IfOk result (λ p. the_core p.second.value ≡ (got_of second).core) }
    ensures tree { IfOk result (λ p. derivation_of p.tree
        ≡ splits.two_parts node (splits.marks_of_uses (got_of first).uses (got_of second).uses) (got_of first).tree (got_of second).tree) }
    ensures uses { IfOk result (λ p. p.uses.items ≡ tables.join (got_of first).uses (got_of second).uses) }
{
    let marks = marks_of_uses(alloc, &first.uses, &second.uses)?;
    let uses = join(alloc, &first.uses, &second.uses)?;
    paired(alloc, node, marks, uses, first, second)
}

/// A part and two branches of a node: their cores, and the node's derivation and uses.
pub struct Triple {
    pub part: Box<Term<Typed>>,
    pub first: Box<Term<Typed>>,
    pub second: Box<Term<Typed>>,
    pub tree: Deriv,
    pub uses: Vec<Use>,
}

// The same with these marks and uses.
fn put_together(
    alloc: Global,
    node: Node,
    marks: Items<Mark>,
    uses: Vec<Use>,
    part: Got,
    first: Got,
    second: Got,
) -> Result<Triple, Memory>
    ensures part { IfOk result (λ t. the_core t.part.value ≡ (got_of part).core) }
    ensures first { IfOk result (λ t. the_core t.first.value ≡ (got_of first).core) }
    ensures second { IfOk result (λ t. the_core t.second.value ≡ (got_of second).core) }
    ensures tree { IfOk result (λ t. derivation_of t.tree ≡ splits.three_parts node marks (got_of part).tree (got_of first).tree (got_of second).tree) }
    ensures uses { IfOk result (λ t. t.uses.items ≡ uses.items) }
{
    let (part, part_tree, _) = part.apart();
    let (first, first_tree, _) = first.apart();
    let (second, second_tree, _) = second.apart();
    let tree = three_parts(alloc, node, marks, part_tree, first_tree, second_tree)?;
    Ok(Triple {
        part,
        first,
        second,
        tree,
        uses,
    })
}

/// A part of a node and then its branches, of which one is taken. Want of memory is its one refusal.
#[inline(never)]
pub fn branched(
    alloc: Global,
    node: Node,
    part: Got,
    first: Got,
    second: Got,
) -> Result<Triple, Memory>
    ensures part { IfOk result (λ t. the_core t.part.value ≡ (got_of part).core) }
    ensures first { IfOk result (λ t. the_core t.first.value ≡ (got_of first).core) }
    ensures second { IfOk result (λ t. the_core t.second.value ≡ (got_of second).core) }
    ensures tree { IfOk result (λ t. derivation_of t.tree
        ≡ splits.three_parts node (splits.marks_of_uses (got_of part).uses (tables.join (got_of first).uses (got_of second).uses))
        (got_of part).tree (got_of first).tree (got_of second).tree) }
    ensures uses { IfOk result (λ t. t.uses.items ≡ tables.join (got_of part).uses (tables.join (got_of first).uses (got_of second).uses)) }
{
    let branches = join(alloc, &first.uses, &second.uses)?;
    let marks = marks_of_uses(alloc, &part.uses, &branches)?;
    let uses = join(alloc, &part.uses, &branches)?;
    put_together(alloc, node, marks, uses, part, first, second)
}
