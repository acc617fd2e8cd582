// Types.
ghost use Rattle.std.specs.Prelude.{◌≡◌, map, IfOk};
ghost use Rattle.cg_base.specs.Types.{type_of, part_of};

use crate::{Items, Memory, Name, Sigil, Word};
use std::alloc::Global;

/// A field of a record, or an alternative of a variant.
#[cycle(ty)]
#[derive(Drop)]
pub struct Part {
    pub name: Name,
    pub ty: Ty,
    pub taken: bool,
}

/// A type (the paper's types, section 3). `Var` is a type variable, by its position among those of its
/// function, and `Seen` the same one observed. The alternatives of a variant stand in the byte order of
/// their names, and the fields of a record in the order in which they were written.
#[cycle(ty)]
#[derive(Drop)]
pub enum Ty {
    Var(u32),
    Seen(u32),
    Unit,
    Word(Word),
    Bool,
    Arrow(Box<Ty>, Box<Ty>),
    Abs(Name, Items<Ty>, Sigil),
    Variant(Items<Part>),
    Fields(Items<Part>, Sigil),
}

impl Ty {
    /// An equal type.
    #[cycle(copy)]
    pub fn copy(&self, alloc: Global) -> Result<Ty, Memory>
        ensures { IfOk result (λ t. type_of t ≡ type_of self.now) }
    {
        match self {
            Ty::Var(variable) => Ok(Ty::Var(*variable)),
            Ty::Seen(variable) => Ok(Ty::Seen(*variable)),
            Ty::Unit => Ok(Ty::Unit),
            Ty::Word(word) => Ok(Ty::Word(*word)),
            Ty::Bool => Ok(Ty::Bool),
            Ty::Arrow(from, to) => {
                let from = Box::new(alloc, from.copy(alloc)?)?;
                let to = Box::new(alloc, to.copy(alloc)?)?;
                Ok(Ty::Arrow(from, to))
            }
            Ty::Abs(name, args, sigil) => {
                Ok(Ty::Abs(name.copy(alloc)?, copy_types(alloc, args)?, *sigil))
            }
            Ty::Variant(parts) => Ok(Ty::Variant(copy_parts(alloc, parts)?)),
            Ty::Fields(parts, sigil) => Ok(Ty::Fields(copy_parts(alloc, parts)?, *sigil)),
        }
    }
}

/// Equal types, in the same order.
#[cycle(copy)]
pub fn copy_types(alloc: Global, types: &Items<Ty>) -> Result<Items<Ty>, Memory>
    ensures { IfOk result (λ ts. map type_of ts ≡ map type_of types.now) }
{
    let mut copies = Items::new(alloc);
    for ty in types.as_slice() {
        copies.push(ty.copy(alloc)?)?;
    }
    Ok(copies)
}

#[cycle(copy)]
fn copy_parts(alloc: Global, parts: &Items<Part>) -> Result<Items<Part>, Memory>
    ensures { IfOk result (λ ps. map part_of ps ≡ map part_of parts.now) }
{
    let mut copies = Items::new(alloc);
    for part in parts.as_slice() {
        copies.push(Part {
            name: part.name.copy(alloc)?,
            ty: part.ty.copy(alloc)?,
            taken: part.taken,
        })?;
    }
    Ok(copies)
}
