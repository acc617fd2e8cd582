// Locals of iterators.
#![tactic(auto)]

ghost use Rattle.std.specs.Prelude.{◌≡◌, IfOk, map};
ghost use Rattle.cg_cgen_def.specs.Bodies.{locals_from};
ghost use Rattle.cg_cgen_def.specs.Names.{declared};
ghost use Rattle.cg_cgen_def.specs.Places.{local_name};
ghost use Rattle.cg_cgen.specs.Iterators.{kind_type as type_of_kind, types_of};

use crate::copies::copy_type;
use crate::iterators::IterTypes;
use cg_base::{Items, Memory, Word};
use cg_cgen_lines::numbered;
use cg_ctree::{CDecl, CTy};
use std::alloc::Global;

// A local is of a word, of what the iterator's function takes, of what that gives, or of what the iterator gives.
#[derive(Clone, Copy)]
pub(crate) enum Kind {
    Word(Word),
    Item,
    Answer,
    Result,
}

// The type of a local.
fn kind_type(alloc: Global, types: &IterTypes, kind: Kind) -> Result<CTy, Memory>
    ensures { IfOk result (λ t. t ≡ type_of_kind (types_of types.now) kind) }
{
    match kind {
        Kind::Word(word) => Ok(CTy::Word(word)),
        Kind::Item => copy_type(alloc, &types.item),
        Kind::Answer => copy_type(alloc, &types.answer),
        Kind::Result => copy_type(alloc, &types.result),
    }
}

// The local of a number, of a type.
fn declaration(alloc: Global, at: usize, ty: CTy) -> Result<CDecl, Memory>
    ensures { IfOk result (λ d. d ≡ declared ty (local_name at)) }
{
    let name = numbered(alloc, b'x', at)?;
    Ok(CDecl { ty, name })
}

// The locals of these kinds.
pub(crate) fn declarations(
    alloc: Global,
    types: &IterTypes,
    kinds: &[Kind],
) -> Result<Items<CDecl>, Memory>
    ensures { IfOk result (λ ds. ds ≡ locals_from 0 (map (type_of_kind (types_of types.now)) kinds.now)) }
{
    let mut locals = Items::new(alloc);
    for i in 0..kinds.len() {
        let ty = kind_type(alloc, types, kinds[i])?;
        locals.push(declaration(alloc, i, ty)?)?;
    }
    Ok(locals)
}
