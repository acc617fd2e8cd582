// Instances: how many a source has, and their copies.
use crate::accepted::checked;
use crate::kernel::{push_mentioned, push_term, push_type};
use crate::limit::limit_name;
use cg_core::erase;
use cg_inst::{InstFault, Instances, instances};
use cg_mono::{Mono, mono};
use cg_typing::Checked;
use std::alloc::{AllocError, Global};

// Why there is no list of instances.
fn fault_name(fault: InstFault) -> &'static str {
    match fault {
        InstFault::Limit(limit) => limit_name(limit),
        InstFault::Memory => "no memory\n",
    }
}

/// The list of instances of an accepted source, or what is said in its place.
pub fn listed(alloc: Global, source: &[u8]) -> Result<(Checked, Instances), &'static str> {
    let Some(checked) = checked(alloc, source) else {
        return Err("not accepted\n");
    };
    match instances(alloc, &checked) {
        Ok(list) => Ok((checked, list)),
        Err(fault) => Err(fault_name(fault)),
    }
}

/// How many instances a source has, or the limit that is passed.
pub fn count_text(alloc: Global, source: &[u8]) -> Result<String, AllocError> {
    match listed(alloc, source) {
        Ok((_, list)) => {
            let count = list.len();
            Ok(format!(in alloc; "{count} instances\n")?)
        }
        Err(said) => String::from_str(alloc, said),
    }
}

// The nodes of a body, where it is one of a function with type variables.
fn push_body(alloc: Global, text: &mut String, copies: &Mono, at: u32) -> Result<(), AllocError> {
    match (copies.instance(at), copies.body(at)) {
        (Some(instance), Some(body)) if instance.args.len() > 0 => match erase(alloc, body) {
            Ok(term) => push_term(text, 1, &term),
            Err(_) => Err(AllocError),
        },
        _ => Ok(()),
    }
}

// The line of the copy at a place: its function, its type arguments and its type, and `=` where it has a body.
fn push_copy(text: &mut String, copies: &Mono, at: u32) -> Result<(), AllocError> {
    if let (Some(instance), Some(ty)) = (copies.instance(at), copies.ty(at)) {
        push_mentioned(text, instance.fun)?;
        for arg in instance.args.as_slice() {
            text.push_str(" ")?;
            push_type(text, arg)?;
        }
        text.push_str(" : ")?;
        push_type(text, ty)?;
        text.push_str(if copies.body(at).is_some() {
            " =\n"
        } else {
            "\n"
        })?;
    }
    Ok(())
}

/// A line for the copy of each instance of a source, with a line for each node of its body, where its function has type variables.
pub fn copies_text(alloc: Global, source: &[u8]) -> Result<String, AllocError> {
    let (checked, list) = match listed(alloc, source) {
        Ok(both) => both,
        Err(said) => return String::from_str(alloc, said),
    };
    let Ok(copies) = mono(alloc, &checked, &list) else {
        return String::from_str(alloc, "no memory\n");
    };
    let mut text = String::new(alloc);
    for at in 0..copies.len() {
        if let Ok(at) = u32::try_from(at) {
            push_copy(&mut text, &copies, at)?;
            push_body(alloc, &mut text, &copies, at)?;
        }
    }
    Ok(text)
}
