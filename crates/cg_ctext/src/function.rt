// Functions.
#![tactic(auto, using(std::proofs::lemmas::Grind::common_steps))]

ghost use Rattle.std.specs.Prelude.{◌≡◌, ◌++◌, codes, OnOk, Some, map};
ghost use Rattle.std.specs.List.{flat_map};
ghost use Rattle.std.specs.Option.{option_map};
ghost use Rattle.cg_ctree.specs.Trees.{body_of, function_of};
ghost use Rattle.cg_ctext.specs.Printed.{body_text, function_text};

use crate::declaration::{declared, locals, some_parameters};
use crate::put::put;
use crate::statement::body_statements;
use cg_base::Memory;
use cg_ctree::{CBody, CFun};
use std::alloc::Global;

// A body, behind the parenthesis that ends the parameters.
fn body(alloc: Global, text: &mut Vec<u8>, body: &CBody) -> Result<(), Memory>
    ensures { OnOk result (text.new.items ≡ text.old.items ++ (codes ")" ++ body_text (Some (body_of body.now)))) }
{
    put(text, b") {")?;
    locals(text, body.locals.as_slice())?;
    body_statements(alloc, text, body.stmts.as_slice())?;
    put(text, b"\n}")
}

// The parenthesis that ends the parameters, and a body, or that there is none.
fn maybe_body(alloc: Global, text: &mut Vec<u8>, maybe: &Option<CBody>) -> Result<(), Memory>
    ensures { OnOk result (text.new.items ≡ text.old.items ++ (codes ")" ++ body_text (option_map body_of maybe.now))) }
{
    match maybe {
        Some(defined) => body(alloc, text, defined),
        None => put(text, b");"),
    }
}

// A function, behind an empty line.
fn function(alloc: Global, text: &mut Vec<u8>, fun: &CFun) -> Result<(), Memory>
    ensures { OnOk result (text.new.items ≡ text.old.items ++ function_text (function_of fun.now)) }
{
    declared(text, b"\n\n", &fun.ty, &fun.name)?;
    put(text, b"(")?;
    some_parameters(text, fun.params.as_slice())?;
    maybe_body(alloc, text, &fun.body)
}

/// Functions.
pub(crate) fn functions(alloc: Global, text: &mut Vec<u8>, funs: &[CFun]) -> Result<(), Memory>
    ensures { OnOk result (text.new.items ≡ text.old.items ++ flat_map function_text (map function_of funs.now)) }
{
    for fun in funs {
        function(alloc, text, fun)?;
    }
    Ok(())
}
