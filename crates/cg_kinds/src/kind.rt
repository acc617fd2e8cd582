// The kinds of types.
#![tactic(auto, using(crate::proofs::KindSteps::kind_steps), unfolding(crate::specs::Kinds::kinds))]

ghost use Rattle.std.specs.Prelude.{◌≡◌, map, slice_get};
ghost use Rattle.cg_base.specs.Types.{type_of, part_of, to_taus, to_parts};
ghost use Rattle.cg_kinds.specs.Kinds.{kinds, kinds_all, kinds_parts, both, sigil_kinds, or_none, at_least};

use cg_base::{Bound, Items, Kinds, Part, Sigil, Ty};

const ALL: Kinds = Kinds {
    drop: true,
    share: true,
    escape: true,
};

const SEEN: Kinds = Kinds {
    drop: true,
    share: true,
    escape: false,
};

const WRITTEN: Kinds = Kinds {
    drop: false,
    share: false,
    escape: true,
};

const NONE: Kinds = Kinds {
    drop: false,
    share: false,
    escape: false,
};

/// The kinds of a type whose variables have these bounds (docs/LANGUAGE.md, "Kinds and bang"): what may be done
/// with each of its values. It takes no memory.
#[cycle(kinds)]
pub fn kinds_of(ty: &Ty, vars: &Items<Bound>) -> Kinds
    ensures { result ≡ kinds (map (λ b. b.kinds) vars.now) (type_of ty.now) }
{
    match ty {
        Ty::Var(variable) => of_variable(*variable, vars),
        Ty::Seen(_) => SEEN,
        Ty::Unit | Ty::Bool => ALL,
        Ty::Word(_) => ALL,
        Ty::Arrow(_, _) => ALL,
        Ty::Abs(_, args, sigil) => shared(of_sigil(*sigil), of_types(args, vars)),
        Ty::Variant(alternatives) => of_parts(alternatives, vars),
        Ty::Fields(parts, sigil) => shared(of_sigil(*sigil), of_parts(parts, vars)),
    }
}

// What both give.
#[tactic(auto, unfolding(crate::specs::Kinds::both))]
fn shared(first: Kinds, second: Kinds) -> Kinds
    ensures { result ≡ both first second }
{
    Kinds {
        drop: first.drop && second.drop,
        share: first.share && second.share,
        escape: first.escape && second.escape,
    }
}

fn of_sigil(sigil: Sigil) -> Kinds
    ensures { result ≡ sigil_kinds sigil }
{
    match sigil {
        Sigil::R => SEEN,
        Sigil::W => WRITTEN,
        Sigil::U => ALL,
    }
}

// What the bound of a variable gives.
fn of_variable(variable: u32, vars: &Items<Bound>) -> Kinds
    ensures { result ≡ or_none (slice_get (map (λ b. b.kinds) vars.now) variable) }
{
    match vars.get(variable as usize) {
        Some(bound) => bound.kinds,
        None => NONE,
    }
}

// What all of these types give.
#[cycle(kinds)]
fn of_types(types: &Items<Ty>, vars: &Items<Bound>) -> Kinds
    ensures { result ≡ kinds_all (map (λ b. b.kinds) vars.now) (to_taus (map type_of types.now)) }
{
    let mut found = ALL;
    for ty in types.as_slice() {
        found = shared(found, kinds_of(ty, vars));
    }
    found
}

// What all of these parts give.
#[cycle(kinds)]
fn of_parts(parts: &Items<Part>, vars: &Items<Bound>) -> Kinds
    ensures { result ≡ kinds_parts (map (λ b. b.kinds) vars.now) (to_parts (map part_of parts.now)) }
{
    let mut found = ALL;
    for part in parts.as_slice() {
        found = shared(found, of_part(part, vars));
    }
    found
}

// What a part gives: everything where it is taken.
#[cycle(kinds)]
fn of_part(part: &Part, vars: &Items<Bound>) -> Kinds
    ensures { result ≡ at_least (kinds (map (λ b. b.kinds) vars.now) (type_of part.now.ty)) part.now.taken }
{
    if part.taken {
        ALL
    } else {
        kinds_of(&part.ty, vars)
    }
}
