// How a node is reached (docs/LANGUAGE.md, "Certificates"): that there is one, and its name and marks.
#![tactic(auto, using(crate::proofs::NodeSteps::node_steps), unfolding(crate::specs::Steps::leaf_reached, crate::specs::Steps::leaf_tested, crate::specs::Steps::split_reached, crate::specs::Steps::record_reached, crate::specs::Steps::literal_reached))]

ghost use Rattle.std.specs.Prelude.{◌≡◌, [], map};
ghost use Rattle.std.specs.Option.{option_copied};
ghost use Rattle.cg_base.specs.Types.{type_of};
ghost use Rattle.cg_certcheck_context.specs.Contexts.{context_of};
ghost use Rattle.cg_certcheck_context.specs.Steps as steps;
ghost use Rattle.cg_certcheck_context.specs.View.{Agrees, cursor_of, split_in, strings_in};
ghost use Rattle.cg_check_pieces.specs.View.{bounds_of, way_of};
ghost use Rattle.cg_core.specs.declared.derivation.Node.TheVariants.{LetBang};
ghost use Rattle.cg_core.specs.Kernels.{the_field};
ghost use Rattle.cg_core.specs.Terms.{to_named};
ghost use Rattle.cg_certcheck_def.specs.Tests.{number_of, same_node};

use crate::context::Entry;
use crate::source::{Cursor, Source, step};
use crate::splits::{splits, splits_fields, splits_observed};
use crate::tests::{drops_all, meets};
use cg_base::{Items, Place, Ty};
use cg_cert::CertFault;
use cg_core::{FieldTerm, Mark, Node, Seen};

/// The marks of a node that splits a context, and where the pass stands behind it.
#[derive(Clone, Copy)]
pub struct Split<'a> {
    pub marks: &'a [Mark],
    pub at: Cursor,
}

/// The mark strings of a record, one between each field and the later ones, and where the pass stands behind its node.
#[derive(Clone, Copy)]
pub struct Strings<'a> {
    pub strings: &'a [Items<Mark>],
    pub at: Cursor,
}

// The number of a rule.
fn number(node: Node) -> u8
    ensures { result ≡ number_of node }
{
    node as u8
}

// Whether two nodes are of one rule.
fn is_same(first: Node, second: Node) -> bool
    ensures { result ≡ same_node first second }
{
    number(first) == number(second)
}

// The mark strings of the node that stands here: C3 where there is none, C2 where it is of another rule.
#[tactic(auto, using(crate::proofs::NodeSteps::found_steps))]
fn find<'a>(source: &Source<'a>, node: Node, at: Cursor) -> Result<&'a [Items<Mark>], CertFault>
    ensures { Agrees (λ strings. strings.now) result (steps.found (cursor_of source.now.nodes.now at) node) }
{
    if at.index >= source.nodes.len() {
        return Err(CertFault::C3(at.next));
    }
    let found = &source.nodes[at.index];
    if !is_same(found.node, node) {
        return Err(CertFault::C2(at.next));
    }
    Ok(found.marks.as_slice())
}

/// A node of this rule without marks: where the pass stands behind it. C3 with its number where there is no node, C2 with it where the
/// node is of another rule or has marks; and `Memory` for want of memory.
#[inline(never)]
pub fn reach_leaf(source: &Source, node: Node, at: Cursor) -> Result<Cursor, CertFault>
    ensures { Agrees (cursor_of source.now.nodes.now) result (steps.leaf_reached (cursor_of source.now.nodes.now at) node) }
{
    let strings = find(source, node, at)?;
    if !strings.is_empty() {
        return Err(CertFault::C2(at.next));
    }
    Ok(step(source, at)?)
}

/// The same of a leaf of this type, of whose context it is known whether it may end there: C2 with its number also where it may not, or
/// where the leaf isn't of the type that is checked against, if any is.
#[inline(never)]
pub fn test_leaf(
    source: &Source,
    direction: Option<&Ty>,
    ty: &Ty,
    node: Node,
    holds: bool,
    at: Cursor,
) -> Result<Cursor, CertFault>
    ensures { Agrees (cursor_of source.now.nodes.now) result (steps.leaf_tested (way_of (option_copied direction.entry)) (type_of ty.now) node holds (cursor_of source.now.nodes.now at)) }
{
    let behind = reach_leaf(source, node, at)?;
    if holds && meets(direction, ty) {
        Ok(behind)
    } else {
        Err(CertFault::C2(at.next))
    }
}

/// The same of a literal that stands left of its guide: C2 with its number also where a variable of its context may not be dropped.
#[inline(never)]
pub fn reach_literal(source: &Source, context: &[Entry], at: Cursor) -> Result<Cursor, CertFault>
    ensures { Agrees (cursor_of source.now.nodes.now) result (steps.literal_reached (bounds_of source.now.vars.now) (context_of (bounds_of source.now.vars.now) context.now) (cursor_of source.now.nodes.now at)) }
{
    let behind = reach_leaf(source, Node::Lit, at)?;
    if drops_all(source, context) {
        Ok(behind)
    } else {
        Err(CertFault::C2(at.next))
    }
}

/// A node of this rule with one mark string, which splits a context: its marks. C3 with its number where there is no node, C2 with it
/// where the node is of another rule, or its marks don't split the context; and `Memory` for want of memory.
#[inline(never)]
pub fn reach_split<'a>(
    source: &Source<'a>,
    context: &[Entry],
    node: Node,
    at: Cursor,
) -> Result<Split<'a>, CertFault>
    ensures { Agrees (split_in source.now.nodes.now) result (steps.split_reached (bounds_of source.now.vars.now) [] (context_of (bounds_of source.now.vars.now) context.now) node (cursor_of source.now.nodes.now at)) }
{
    let strings = find(source, node, at)?;
    if strings.len() != 1 {
        return Err(CertFault::C2(at.next));
    }
    let marks = strings[0].as_slice();
    if !splits(source, context, marks) {
        return Err(CertFault::C2(at.next));
    }
    let at = step(source, at)?;
    Ok(Split { marks, at })
}

/// The same of a `let!` that observes these variables.
#[inline(never)]
pub fn reach_observed<'a>(
    source: &Source<'a>,
    context: &[Entry],
    observers: &Items<Seen>,
    at: Cursor,
) -> Result<Split<'a>, CertFault>
    ensures { Agrees (split_in source.now.nodes.now) result (steps.split_reached (bounds_of source.now.vars.now) observers.now (context_of (bounds_of source.now.vars.now) context.now) LetBang (cursor_of source.now.nodes.now at)) }
{
    let strings = find(source, Node::LetBang, at)?;
    if strings.len() != 1 {
        return Err(CertFault::C2(at.next));
    }
    let marks = strings[0].as_slice();
    if !splits_observed(source, context, observers, marks)? {
        return Err(CertFault::C2(at.next));
    }
    let at = step(source, at)?;
    Ok(Split { marks, at })
}

/// The same of a record, which has a mark string between each field and the later ones.
#[inline(never)]
pub fn reach_record<'a>(
    source: &Source<'a>,
    context: &[Entry],
    fields: &Items<FieldTerm<Place>>,
    at: Cursor,
) -> Result<Strings<'a>, CertFault>
    ensures { Agrees (strings_in source.now.nodes.now) result (steps.record_reached (bounds_of source.now.vars.now) (to_named (map the_field fields.now)) (context_of (bounds_of source.now.vars.now) context.now) (cursor_of source.now.nodes.now at)) }
{
    let strings = find(source, Node::Struct, at)?;
    if !splits_fields(source, context, fields, strings)? {
        return Err(CertFault::C2(at.next));
    }
    let at = step(source, at)?;
    Ok(Strings { strings, at })
}
