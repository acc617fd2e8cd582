// A struct that holds another.
use cg_base::{Items, Memory, Name, Word};
use cg_cmachine_layout::{Kind, Structs};
use cg_ctree::{CDecl, CStruct, CTy};
use std::alloc::Global;
use std::test::Fail;

/// A declaration of a member.
fn member(alloc: Global, ty: CTy, name: &[u8]) -> Result<CDecl, Memory> {
    Ok(CDecl {
        ty,
        name: Name::new(alloc, name)?,
    })
}

/// `struct P { uint8_t a; uint8_t b; };`
fn pair(alloc: Global) -> Result<CStruct, Memory> {
    let mut members = Items::new(alloc);
    members.push(member(alloc, CTy::Word(Word::U8), b"a")?)?;
    members.push(member(alloc, CTy::Word(Word::U8), b"b")?)?;
    Ok(CStruct {
        name: Name::new(alloc, b"P")?,
        members,
    })
}

/// `struct S { uint32_t n; struct P p; };`
fn holder(alloc: Global) -> Result<CStruct, Memory> {
    let mut members = Items::new(alloc);
    members.push(member(alloc, CTy::Word(Word::U32), b"n")?)?;
    members.push(member(alloc, CTy::Struct(Name::new(alloc, b"P")?), b"p")?)?;
    Ok(CStruct {
        name: Name::new(alloc, b"S")?,
        members,
    })
}

/// The struct that holds another, and then the other.
fn both(alloc: Global) -> Result<Items<CStruct>, Memory> {
    let mut structs = Items::new(alloc);
    structs.push(holder(alloc)?)?;
    structs.push(pair(alloc)?)?;
    Ok(structs)
}

/// The path `p.b`.
fn path(alloc: Global) -> Result<Items<Name>, Memory> {
    let mut path = Items::new(alloc);
    path.push(Name::new(alloc, b"p")?)?;
    path.push(Name::new(alloc, b"b")?)?;
    Ok(path)
}

/// Where the part of a struct stands that a path leads to, if that is a byte.
fn byte_at<'a>(structs: &Structs<'a>, name: &'a Name, path: &[Name]) -> Option<u32> {
    let part = structs.part_of(name, path)?;
    match part.kind {
        Kind::Word(Word::U8) => Some(part.start),
        _ => None,
    }
}

/// Where `p.b` stands in the struct of a name.
fn inner_byte<'a>(
    alloc: Global,
    structs: &'a [CStruct],
    name: &'a Name,
) -> Result<Option<u32>, Memory> {
    let path = path(alloc)?;
    let table = Structs::new(alloc, structs)?;
    Ok(byte_at(&table, name, path.as_slice()))
}

#[test]
fn members_stand_behind_each_other(rt: HostRuntime) -> Result<(), Fail> {
    let structs = both(rt.alloc())?;
    let name = Name::new(rt.alloc(), b"S")?;
    let at = inner_byte(rt.alloc(), structs.as_slice(), &name)?;
    assert!(rt; at == Some(2));
    Ok(())
}
