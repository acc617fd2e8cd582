// Printing a certificate.
#![tactic(auto, using(crate::proofs::Printing::printing, std::proofs::lemmas::Grind::common_steps))]

ghost use Rattle.std.specs.Prelude.{◌≡◌, ◌++◌, IfOk, OnOk, map, codes};
ghost use Rattle.std.specs.List.{flat_map};
ghost use Rattle.cg_core.specs.Derivations.{derivation_of};
ghost use Rattle.cg_core.specs.Kernels.{kernel_of};
ghost use Rattle.cg_typing.specs.Holds.{kernel_in, trees_in, kept_at};
ghost use Rattle.cg_typing.specs.Kept.{maybe_tree};
ghost use Rattle.cg_cert.specs.Certificates.{certificate, nodes_of};
ghost use Rattle.cg_cert.specs.Printed.{string_text, tree_text, function_text, functions_text};
ghost use Rattle.cg_cert.specs.Texts.{mark_sign, node_line as line_of, fun_lines, text as text_of};

use crate::word::node_word;
use cg_base::{Items, Memory, Name};
use cg_core::{Deriv, Mark, Node};
use cg_typing::Checked;
use std::alloc::Global;

// These bytes.
fn put(text: &mut Vec<u8>, piece: &[u8]) -> Result<(), Memory>
    ensures { OnOk result (text.new.items ≡ text.old.items ++ piece.now) }
{
    text.extend_from_slice(piece)?;
    Ok(())
}

// The sign of a mark.
fn sign(mark: Mark) -> u8
    ensures { result ≡ mark_sign mark }
{
    match mark {
        Mark::Gone => b'-',
        Mark::Left => b'L',
        Mark::Right => b'R',
        Mark::Both => b'B',
        Mark::Seen => b'O',
    }
}

// A mark string, behind a space.
fn string(text: &mut Vec<u8>, marks: &[Mark]) -> Result<(), Memory>
    ensures { OnOk result (text.new.items ≡ text.old.items ++ string_text marks.now) }
{
    put(text, b" ")?;
    for mark in marks {
        text.push(sign(*mark))?;
    }
    Ok(())
}

// Mark strings.
fn strings(text: &mut Vec<u8>, marks: &[Items<Mark>]) -> Result<(), Memory>
    ensures { OnOk result (text.new.items ≡ text.old.items ++ flat_map string_text marks.now) }
{
    for marks in marks {
        string(text, marks.as_slice())?;
    }
    Ok(())
}

// The line of a node.
fn node_line(text: &mut Vec<u8>, node: Node, marks: &[Items<Mark>]) -> Result<(), Memory>
    ensures { OnOk result (text.new.items ≡ text.old.items ++ line_of (record { node = node; marks = marks.now })) }
{
    put(text, node_word(node))?;
    strings(text, marks)?;
    put(text, b"\n")
}

// The lines of the nodes of a derivation.
fn tree_lines(text: &mut Vec<u8>, tree: &Deriv) -> Result<(), Memory>
    ensures { OnOk result (text.new.items ≡ text.old.items ++ tree_text (derivation_of tree.now)) }
{
    node_line(text, tree.node, tree.marks.as_slice())?;
    for part in tree.parts.as_slice() {
        tree_lines(text, part)?;
    }
    Ok(())
}

// The lines of a function.
fn function_lines(text: &mut Vec<u8>, name: &Name, tree: &Deriv) -> Result<(), Memory>
    ensures { OnOk result (text.new.items ≡ text.old.items ++ fun_lines (record { name = name.now; nodes = nodes_of (derivation_of tree.now) })) }
{
    put(text, b"fun ")?;
    put(text, name.bytes())?;
    put(text, b"\n")?;
    tree_lines(text, tree)
}

// The lines of a function, where there is one at this number that has a derivation.
fn lines_at(text: &mut Vec<u8>, name: &Name, checked: &Checked, at: usize) -> Result<(), Memory>
    ensures { OnOk result (text.new.items ≡ text.old.items ++ function_text name.now (maybe_tree (kept_at (trees_in checked.now) at))) }
{
    let at = u32::try_from(at).map_err(|_| Memory)?;
    match checked.deriv(at) {
        Some(tree) => function_lines(text, name, tree),
        None => Ok(()),
    }
}

// The lines of all functions.
fn lines(text: &mut Vec<u8>, checked: &Checked) -> Result<(), Memory>
    ensures { OnOk result (text.new.items ≡ text.old.items ++ functions_text (kernel_of (kernel_in checked.now)) (map maybe_tree (trees_in checked.now))) }
{
    for (at, fun) in checked.kernel().funs.as_slice().iter().enumerate() {
        lines_at(text, &fun.at.name, checked, at)?;
    }
    Ok(())
}

/// The text of the certificate of a checked source (docs/LANGUAGE.md, "Certificates"): the nodes of the derivation that is kept of
/// each of its bodies. Want of memory is its one refusal.
pub fn print_cert(alloc: Global, checked: &Checked) -> Result<Vec<u8>, Memory>
    ensures { IfOk result (λ bytes. bytes.items ≡ text_of (certificate (kernel_of (kernel_in checked.now)) (map maybe_tree (trees_in checked.now)))) }
{
    let mut text = Vec::new(alloc);
    put(&mut text, b"cogent certificate 1\n")?;
    lines(&mut text, checked)?;
    put(&mut text, b"end\n")?;
    Ok(text)
}
