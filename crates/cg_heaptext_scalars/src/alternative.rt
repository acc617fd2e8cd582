// The alternatives of a variant.
ghost use Rattle.std.specs.Prelude.{◌≡◌, ◌∷◌, ◌<◌, length, zero, IfSome, OnOk};
ghost use Rattle.cg_heap.specs.declared.cell.Scalar.TheVariants.{Word};
ghost use Rattle.cg_heaptext_def.specs.Reading.{scalars_bare};
ghost use Rattle.cg_heaptext_scalars.specs.Given.{Adds, pieces, unset, width};
ghost use Rattle.cg_heaptext_scalars.specs.Alternatives.{place_from};

use crate::padding::pad_parts;
use cg_base::{Items, Memory, Part};
use cg_heap::Scalar;

// The place of the first alternative of this name.
pub(crate) fn place_of(parts: &[Part], name: &[u8]) -> Option<usize>
    ensures exact { result ≡ place_from zero name.now parts.now }
    ensures within { IfSome result (λ at. at < length parts.now) }
{
    for (at, part) in parts.iter().enumerate() {
        if name == part.name.bytes() {
            return Some(at);
        }
    }
    None
}

// Adds the number of the alternative that stands behind these, and the slots of these.
pub(crate) fn add_tag(out: &mut Items<Scalar>, before: &[Part]) -> Result<(), Memory>
    ensures { OnOk result (Adds out.old (Word (length before.now) ∷ unset (width before.now)) out.new) }
{
    out.push(Scalar::Word(before.len() as u64))?;
    pad_parts(out, before)
}

// Adds the scalars of the alternative of this name, without a payload.
pub(crate) fn add_constant(
    out: &mut Items<Scalar>,
    parts: &[Part],
    name: &[u8],
) -> Result<(), Memory>
    ensures { OnOk result (Adds out.old (scalars_bare (pieces parts.now) zero name.now) out.new) }
{
    match place_of(parts, name) {
        Some(at) => {
            add_tag(out, &parts[..at])?;
            out.push(Scalar::Word(0))?;
            pad_parts(out, &parts[at + 1..])
        }
        None => Ok(()),
    }
}
