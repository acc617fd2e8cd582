// How large a type is that is written by its name.
#![tactic(auto, using(std::proofs::lemmas::Grind::common_steps, crate::proofs::NamedSizes::named_sizes))]

ghost use Rattle.std.specs.Prelude.{◌≡◌, ◌+◌, None, sum};
ghost use Rattle.std.specs.Option.{option_map, option_copied};
ghost use Rattle.cg_base.specs.Types.{type_of};
ghost use Rattle.cg_resolve_expand.specs.Known.{known_of};
ghost use Rattle.cg_resolve_written.specs.Capped.{capped};
ghost use Rattle.cg_resolve_written.specs.Sizes.{named_size, applied_size};

use crate::weigh::weigh;
use cg_base::Ty;
use cg_resolve_declared::{is_variable, plain_type};
use cg_resolve_expand::Synonyms;

/// How many nodes the type of this name has with arguments of these sizes; a `u32`'s most where there are more. It takes no
/// memory.
pub(crate) fn named_size(synonyms: &Synonyms<'_>, name: &[u8], sizes: &[u32]) -> u32
    ensures { result ≡ capped (named_size (known_of synonyms.now) name.now sizes.now) }
{
    if is_variable(name) || plain_type(name).is_some() {
        return 1;
    }
    applied_size(synonyms.body(name), sizes)
}

// That of a synonym with this body, or of an abstract type.
fn applied_size(body: Option<&Ty>, sizes: &[u32]) -> u32
    ensures { result ≡ capped (applied_size sizes.now None (option_map type_of (option_copied body.entry))) }
{
    match body {
        Some(body) => weigh(body, sizes),
        None => sum(sizes).saturating_add(1),
    }
}

// Sizes together.
fn sum(sizes: &[u32]) -> u32
    ensures { result ≡ capped (sum sizes.now) }
{
    let mut total = 0u32;
    for size in sizes {
        total = total.saturating_add(*size);
    }
    total
}
