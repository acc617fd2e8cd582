// The texts that are made of a number.
ghost use Rattle.std.specs.Prelude.{◌≡◌, ◌++◌, ◌<◌, ◌≤◌, ◌^◌, IfOk, OnOk, string_bytes};
ghost use Rattle.cg_gen.specs.Generated as generated;

use cg_base::Memory;
use std::alloc::Global;

/// Adds these bytes.
fn put(text: &mut Vec<u8>, piece: &[u8]) -> Result<(), Memory>
    ensures { OnOk result (text.new.items ≡ text.old.items ++ piece.now) }
{
    text.extend_from_slice(piece)?;
    Ok(())
}

/// Adds the name of a function by its number.
fn put_name(alloc: Global, text: &mut Vec<u8>, number: u32) -> Result<(), Memory>
    ensures { OnOk result (text.new.items ≡ text.old.items ++ generated.name number) }
{
    put(text, entry_name(alloc, number)?.as_bytes())
}

/// Adds what the function behind so many others takes apart.
#[tactic(auto, unfolding(crate::specs::Generated::subject))]
fn put_subject(alloc: Global, text: &mut Vec<u8>, before: u32) -> Result<(), Memory>
    ensures { OnOk result (text.new.items ≡ text.old.items ++ generated.subject before) }
{
    if before == 0 {
        return put(text, b"c");
    }
    put_name(alloc, text, before)?;
    put(text, b" c")
}

/// Adds the type of the function behind so many others.
#[tactic(auto, unfolding(crate::specs::Generated::type_line))]
fn put_type(alloc: Global, text: &mut Vec<u8>, before: u32) -> Result<(), Memory>
    requires { before < 2 ^ 31 }
    ensures { OnOk result (text.new.items ≡ text.old.items ++ generated.type_line before) }
{
    put_name(alloc, text, before + 1)?;
    put(text, b" : Cell -> Cell\n")
}

/// Adds the end of the definition of the function behind so many others.
#[tactic(auto, unfolding(crate::specs::Generated::sum_text))]
fn put_sum(alloc: Global, text: &mut Vec<u8>, before: u32) -> Result<(), Memory>
    requires { before < 2 ^ 31 }
    ensures { OnOk result (text.new.items ≡ text.old.items ++ generated.sum_text before) }
{
    let number = before + 1;
    put(
        text,
        format!(in alloc; " in c' {{val = v * 3 + {number}}}\n")?.as_bytes(),
    )
}

/// Adds the definition of the function behind so many others.
fn put_body(alloc: Global, text: &mut Vec<u8>, before: u32) -> Result<(), Memory>
    requires { before < 2 ^ 31 }
    ensures { OnOk result (text.new.items ≡ text.old.items ++ generated.body_line before) }
{
    put_name(alloc, text, before + 1)?;
    put(text, b" c = let c' {val = v} = ")?;
    put_subject(alloc, text, before)?;
    put_sum(alloc, text, before)?;
    Ok(())
}

/// Adds the function behind so many others.
#[tactic(auto, unfolding(crate::specs::Generated::function))]
fn put_function(alloc: Global, text: &mut Vec<u8>, before: u32) -> Result<(), Memory>
    requires { before < 2 ^ 31 }
    ensures { OnOk result (text.new.items ≡ text.old.items ++ generated.function before) }
{
    put_type(alloc, text, before)?;
    put_body(alloc, text, before)
}

/// The source of `n` functions, of which each but the first calls the one before.
pub fn generate(alloc: Global, n: u32) -> Result<Vec<u8>, Memory>
    requires most { n ≤ 4096 }
    ensures { IfOk result (λ text. text.items ≡ generated.source n) }
{
    let mut text = Vec::new(alloc);
    put(&mut text, b"type Cell = {val : U32, tag : U8}\n")?;
    for before in 0..n {
        put_function(alloc, &mut text, before)?;
    }
    Ok(text)
}

/// The heap file of a generated source: one cell, to which the argument points.
pub fn heap_text() -> &'static [u8]
    ensures { result.now ≡ generated.heap }
{
    b"@1 = {val = 0, tag = 0}\narg = @1\n"
}

/// The entry of the source of `n` functions: the last of them.
#[tactic(auto, unfolding(crate::specs::Generated::name))]
pub fn entry_name(alloc: Global, n: u32) -> Result<String, Memory>
    ensures { IfOk result (λ name. string_bytes name ≡ generated.entry n) }
{
    Ok(format!(in alloc; "f{n}")?)
}
