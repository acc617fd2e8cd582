// The structs of a record that holds a record, a variant and pointers.
#![tactic(auto)]

use cg_base::{Items, Memory, Name, Part, Sigil, Ty, Word};
use cg_ctree::{CStruct, CTy};
use cg_lower_tables::Structs;
use std::alloc::Global;
use std::test::Fail;

/// One part more.
fn put(
    alloc: Global,
    parts: &mut Items<Part>,
    name: &[u8],
    ty: Ty,
    taken: bool,
) -> Result<(), Memory> {
    let name = match Name::new(alloc, name) {
        Ok(name) => name,
        Err(e) => {
            drop(ty);
            return Err(e);
        }
    };
    parts.push(Part { name, ty, taken })
}

/// `#{x : U32, y : U8}`, with these names and the first part taken or not.
fn pair(alloc: Global, first: &[u8], second: &[u8], taken: bool) -> Result<Ty, Memory> {
    let mut parts = Items::new(alloc);
    put(alloc, &mut parts, first, Ty::Word(Word::U32), taken)?;
    put(alloc, &mut parts, second, Ty::Word(Word::U8), false)?;
    Ok(Ty::Fields(parts, Sigil::U))
}

/// An array of words of 16 bits, to read.
fn array(alloc: Global) -> Result<Ty, Memory> {
    let mut args = Items::new(alloc);
    args.push(Ty::Word(Word::U16))?;
    let name = Name::new(alloc, b"WordArray")?;
    Ok(Ty::Abs(name, args, Sigil::R))
}

/// `<A Unit | B #{x : U32, y : U8}>`.
fn choice(alloc: Global) -> Result<Ty, Memory> {
    let mut parts = Items::new(alloc);
    put(alloc, &mut parts, b"A", Ty::Unit, false)?;
    put(
        alloc,
        &mut parts,
        b"B",
        pair(alloc, b"x", b"y", false)?,
        false,
    )?;
    Ok(Ty::Variant(parts))
}

/// `{p : #{x : U32, y : U8}, c : <A Unit | B #{..}>, w : WordArray U16}`, in a cell.
fn cell(alloc: Global, sigil: Sigil) -> Result<Ty, Memory> {
    let mut parts = Items::new(alloc);
    put(
        alloc,
        &mut parts,
        b"p",
        pair(alloc, b"x", b"y", false)?,
        false,
    )?;
    put(alloc, &mut parts, b"c", choice(alloc)?, false)?;
    put(alloc, &mut parts, b"w", array(alloc)?, false)?;
    Ok(Ty::Fields(parts, sigil))
}

/// The text of a type of C.
fn put_type(text: &mut Vec<u8>, ty: &CTy) -> Result<(), Memory> {
    match ty {
        CTy::Word(Word::U8) => text.extend_from_slice(b"u8")?,
        CTy::Word(Word::U16) => text.extend_from_slice(b"u16")?,
        CTy::Word(Word::U32) => text.extend_from_slice(b"u32")?,
        CTy::Word(Word::U64) => text.extend_from_slice(b"u64")?,
        CTy::Struct(name) => text.extend_from_slice(name.bytes())?,
        CTy::Pointer(name) => {
            text.extend_from_slice(name.bytes())?;
            text.extend_from_slice(b"*")?;
        }
    }
    Ok(())
}

/// The text of structs.
fn text_of(alloc: Global, structs: &[CStruct]) -> Result<Vec<u8>, Memory> {
    let mut text = Vec::new(alloc);
    for one in structs {
        text.extend_from_slice(one.name.bytes())?;
        text.extend_from_slice(b":")?;
        for member in one.members.as_slice() {
            text.extend_from_slice(b" ")?;
            put_type(&mut text, &member.ty)?;
            text.extend_from_slice(b" ")?;
            text.extend_from_slice(member.name.bytes())?;
            text.extend_from_slice(b";")?;
        }
        text.extend_from_slice(b"\n")?;
    }
    Ok(text)
}

/// Adds the structs of a type, which is let go.
fn add(alloc: Global, structs: &mut Structs, ty: Ty) -> Result<(), Memory> {
    let added = structs.add(alloc, &ty);
    drop(ty);
    added
}

/// The text of the declarations.
fn declared(alloc: Global, structs: &Structs) -> Result<Vec<u8>, Memory> {
    let found = structs.declarations(alloc)?;
    text_of(alloc, found.as_slice())
}

/// The text of a type as C has it.
fn shown(alloc: Global, structs: &mut Structs, ty: Ty) -> Result<Vec<u8>, Memory> {
    let found = structs.c_type(alloc, &ty);
    drop(ty);
    let mut text = Vec::new(alloc);
    put_type(&mut text, &found?)?;
    Ok(text)
}

#[test]
fn each_stands_behind_its_members(rt: HostRuntime) -> Result<(), Fail> {
    let alloc = rt.alloc();
    let mut structs = Structs::new(alloc);
    add(alloc, &mut structs, cell(alloc, Sigil::W)?)?;
    let text = declared(alloc, &structs)?;
    let wanted = b"s0: u32 m0; u8 m1;\ns1: u32 t; u8 a0; s0 a1;\ns2: s0 m0; s1 m1; W16* m2;\n";
    assert_eq!(rt; text.as_slice(), wanted.as_slice());
    Ok(())
}

#[test]
fn one_form_has_one_struct(rt: HostRuntime) -> Result<(), Fail> {
    let alloc = rt.alloc();
    let mut structs = Structs::new(alloc);
    add(alloc, &mut structs, pair(alloc, b"x", b"y", false)?)?;
    add(alloc, &mut structs, pair(alloc, b"first", b"second", true)?)?;
    add(alloc, &mut structs, cell(alloc, Sigil::R)?)?;
    add(alloc, &mut structs, cell(alloc, Sigil::W)?)?;
    let count = structs.len();
    let text = shown(alloc, &mut structs, cell(alloc, Sigil::R)?)?;
    assert_eq!(rt; count, 3);
    assert_eq!(rt; text.as_slice(), b"s2*".as_slice());
    Ok(())
}
