// The nodes of a core, in reading order.
#![tactic(auto, using(crate::proofs::NodeSteps::node_steps))]

ghost use Rattle.std.specs.Prelude.{◌≡◌, ◌++◌, map, IfOk, OnOk};
ghost use Rattle.cg_core.specs.Kernels.{the_core, the_core_field, the_core_form};
ghost use Rattle.cg_core.specs.Terms.{to_named, to_trees};
ghost use Rattle.cg_typing.specs.Instances.{nodes_below, nodes_of, nodes_of_all, nodes_of_fields};

use cg_base::Memory;
use cg_core::{FieldTerm, Form, Term, Typed};
use std::alloc::Global;

/// The nodes of a core in reading order, each before its parts (docs/LANGUAGE.md, "Instances"). It takes a step for each node. The one error is
/// want of memory.
pub fn nodes_in<'a>(alloc: Global, core: &'a Term<Typed>) -> Result<Vec<&'a Term<Typed>>, Memory>
    ensures { IfOk result (λ nodes. map (λ node. the_core node.now) nodes.items ≡ nodes_of (the_core core.now)) }
{
    let mut nodes = Vec::new(alloc);
    push_nodes(&mut nodes, core)?;
    Ok(nodes)
}

// A node, and those below it.
#[cycle(nodes)]
fn push_nodes<'a>(nodes: &mut Vec<&'a Term<Typed>>, core: &'a Term<Typed>) -> Result<(), Memory>
    ensures { OnOk result (map (λ node. the_core node.now) nodes.new.items ≡ map (λ node. the_core node.now) nodes.old.items ++ nodes_of (the_core core.now)) }
{
    nodes.push(core)?;
    push_below(nodes, &core.form)
}

// The nodes below a node of this form.
#[cycle(nodes)]
fn push_below<'a>(nodes: &mut Vec<&'a Term<Typed>>, form: &'a Form<Typed>) -> Result<(), Memory>
    ensures { OnOk result (map (λ node. the_core node.now) nodes.new.items ≡ map (λ node. the_core node.now) nodes.old.items ++ nodes_below (the_core_form form.now)) }
{
    match form {
        Form::Var(_) | Form::Unit | Form::Bool(_) | Form::Lit(_) | Form::Fun(_, _) => Ok(()),
        Form::Con(_, part)
        | Form::Esac(_, part)
        | Form::Member(part, _)
        | Form::Cast(part)
        | Form::Annot(part, _) => push_nodes(nodes, part),
        Form::App(first, second)
        | Form::Let(_, first, second)
        | Form::LetBang(_, _, first, second)
        | Form::Take(first, _, _, _, second)
        | Form::Put(first, _, second) => {
            push_nodes(nodes, first)?;
            push_nodes(nodes, second)
        }
        Form::If(first, second, third) | Form::Case(first, _, _, second, third) => {
            push_nodes(nodes, first)?;
            push_nodes(nodes, second)?;
            push_nodes(nodes, third)
        }
        Form::Op(_, operands) => push_all(nodes, operands.as_slice()),
        Form::Struct(fields) => push_fields(nodes, fields.as_slice()),
    }
}

// Those of terms, one after the other.
#[cycle(nodes)]
fn push_all<'a>(nodes: &mut Vec<&'a Term<Typed>>, terms: &'a [Term<Typed>]) -> Result<(), Memory>
    ensures { OnOk result (map (λ node. the_core node.now) nodes.new.items
        ≡ map (λ node. the_core node.now) nodes.old.items ++ nodes_of_all (to_trees (map the_core terms.now))) }
{
    for term in terms {
        push_nodes(nodes, term)?;
    }
    Ok(())
}

// Those of fields.
#[cycle(nodes)]
fn push_fields<'a>(
    nodes: &mut Vec<&'a Term<Typed>>,
    fields: &'a [FieldTerm<Typed>],
) -> Result<(), Memory>
    ensures { OnOk result (map (λ node. the_core node.now) nodes.new.items
        ≡ map (λ node. the_core node.now) nodes.old.items ++ nodes_of_fields (to_named (map the_core_field fields.now))) }
{
    for field in fields {
        push_nodes(nodes, &field.term)?;
    }
    Ok(())
}
