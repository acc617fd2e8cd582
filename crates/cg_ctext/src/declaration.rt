// Types, declarations and structs.
#![tactic(auto, using(std::proofs::lemmas::Grind::common_steps))]

ghost use Rattle.std.specs.Prelude.{◌≡◌, ◌++◌, OnOk};
ghost use Rattle.std.specs.List.{flat_map};
ghost use Rattle.cg_ctext.specs.Printed.{type_text, declared_text, decl_text, some_text, local_text, struct_text};

use crate::put::{between, put, word_name};
use cg_base::{Memory, Name};
use cg_ctree::{CDecl, CStruct, CTy};

// A type, and what stands between it and the name that it is the type of.
fn put_type(text: &mut Vec<u8>, ty: &CTy) -> Result<(), Memory>
    ensures { OnOk result (text.new.items ≡ text.old.items ++ type_text ty.now) }
{
    match ty {
        CTy::Word(word) => between(text, b"", word_name(*word), b" "),
        CTy::Struct(name) => between(text, b"struct ", name.bytes(), b" "),
        CTy::Pointer(name) => between(text, b"struct ", name.bytes(), b" *"),
    }
}

/// A type and a name, behind another piece.
pub(crate) fn declared(
    text: &mut Vec<u8>,
    before: &[u8],
    ty: &CTy,
    name: &Name,
) -> Result<(), Memory>
    ensures { OnOk result (text.new.items ≡ text.old.items ++ (before.now ++ declared_text ty.now name.now)) }
{
    put(text, before)?;
    put_type(text, ty)?;
    put(text, name.bytes())
}

/// Parameters, with commas between.
#[tactic(auto, using(crate::proofs::Rows::row_steps, std::proofs::lemmas::Grind::common_steps))]
pub(crate) fn some_parameters(text: &mut Vec<u8>, parameters: &[CDecl]) -> Result<(), Memory>
    ensures { OnOk result (text.new.items ≡ text.old.items ++ some_text decl_text parameters.now) }
{
    let mut before: &[u8] = b"";
    for parameter in parameters {
        declared(text, before, &parameter.ty, &parameter.name)?;
        before = b", ";
    }
    Ok(())
}

// A member or a local, on a line of its own.
fn local(text: &mut Vec<u8>, declaration: &CDecl) -> Result<(), Memory>
    ensures { OnOk result (text.new.items ≡ text.old.items ++ local_text declaration.now) }
{
    declared(text, b"\n    ", &declaration.ty, &declaration.name)?;
    put(text, b";")
}

/// Members or locals.
pub(crate) fn locals(text: &mut Vec<u8>, declarations: &[CDecl]) -> Result<(), Memory>
    ensures { OnOk result (text.new.items ≡ text.old.items ++ flat_map local_text declarations.now) }
{
    for declaration in declarations {
        local(text, declaration)?;
    }
    Ok(())
}

// A struct, behind an empty line.
fn put_struct(text: &mut Vec<u8>, declared: &CStruct) -> Result<(), Memory>
    ensures { OnOk result (text.new.items ≡ text.old.items ++ struct_text declared.now) }
{
    between(text, b"\n\nstruct ", declared.name.bytes(), b" {")?;
    locals(text, declared.members.as_slice())?;
    put(text, b"\n};")
}

/// Structs.
pub(crate) fn structs(text: &mut Vec<u8>, declared: &[CStruct]) -> Result<(), Memory>
    ensures { OnOk result (text.new.items ≡ text.old.items ++ flat_map struct_text declared.now) }
{
    for next in declared {
        put_struct(text, next)?;
    }
    Ok(())
}
