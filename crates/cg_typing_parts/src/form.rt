// Forms and sizes of types.
#![tactic(auto)]

ghost use Rattle.std.specs.Prelude.{◌≡◌, ◌-◌, ◌^◌, ◌||◌, not, nat_lt, map, codes};
ghost use Rattle.std.specs.Str.{bytes_eq};
ghost use Rattle.cg_base.specs.Types.{type_of, part_of, to_taus, to_parts};
ghost use Rattle.cg_base.specs.Words.{bits as bits_of};
ghost use Rattle.cg_kinds.specs.Kinds.{is_word as is_word_of};
ghost use Rattle.cg_typing.specs.Parts.{is_bool as is_bool_of, is_arrow as is_arrow_of, is_variant as is_variant_of, is_read_only as is_read_only_of, widens as widens_of, in_range as in_range_of, are_words, has_word_arrays as has_word_arrays_of, have_word_arrays, parts_have_word_arrays, nodes, nodes_all, nodes_parts, is_small_enough as is_small_enough_of};

use cg_base::{Items, Name, Part, Sigil, Ty, Word};

/// Whether a type is a word. It takes no memory.
pub fn is_word(ty: &Ty) -> bool
    ensures { result ≡ is_word_of (type_of ty.now) }
{
    matches!(ty, Ty::Word(_))
}

/// Whether a type is that of truth values. It takes no memory.
pub fn is_bool(ty: &Ty) -> bool
    ensures { result ≡ is_bool_of (type_of ty.now) }
{
    matches!(ty, Ty::Bool)
}

/// Whether a type is that of functions. It takes no memory.
pub fn is_arrow(ty: &Ty) -> bool
    ensures { result ≡ is_arrow_of (type_of ty.now) }
{
    matches!(ty, Ty::Arrow(_, _))
}

/// Whether a type is a variant. It takes no memory.
pub fn is_variant(ty: &Ty) -> bool
    ensures { result ≡ is_variant_of (type_of ty.now) }
{
    matches!(ty, Ty::Variant(_))
}

/// Whether a type is a record that is only read. It takes no memory.
pub fn is_read_only(ty: &Ty) -> bool
    ensures { result ≡ is_read_only_of (type_of ty.now) }
{
    matches!(ty, Ty::Fields(_, Sigil::R))
}

// How many bits a word has.
fn bits(word: Word) -> u32
    ensures { result ≡ bits_of word }
{
    match word {
        Word::U8 => 8,
        Word::U16 => 16,
        Word::U32 => 32,
        Word::U64 => 64,
    }
}

/// Whether both types are words, of which the second is at least as wide. It takes no memory.
pub fn widens(from: &Ty, to: &Ty) -> bool
    ensures { result ≡ widens_of (type_of from.now) (type_of to.now) }
{
    match from {
        Ty::Word(narrow) => match to {
            Ty::Word(wide) => bits(*narrow) <= bits(*wide),
            _ => false,
        },
        _ => false,
    }
}

// Whether a number is one of a word's.
fn fits(value: u64, word: Word) -> bool
    ensures { result ≡ nat_lt value (2 ^ bits_of word) }
{
    match word {
        Word::U8 => value < 256,
        Word::U16 => value < 65_536,
        Word::U32 => value < 4_294_967_296,
        Word::U64 => true,
    }
}

/// Whether a literal of this value is one of a word; None is a literal above 2^64 - 1, which none has. It takes no memory.
pub fn in_range(value: Option<u64>, ty: &Ty) -> bool
    ensures { result ≡ in_range_of value (type_of ty.now) }
{
    match value {
        Some(number) => match ty {
            Ty::Word(word) => fits(number, *word),
            _ => false,
        },
        None => false,
    }
}

// Whether all of these types are words.
#[tactic(auto, using(crate::proofs::FormSteps::words_steps))]
fn words(types: &Items<Ty>) -> bool
    ensures { result ≡ are_words (to_taus (map type_of types.now)) }
{
    for ty in types.as_slice() {
        if !is_word(ty) {
            return false;
        }
    }
    true
}

// Whether an abstract type of this name and these arguments is no array but of words.
fn is_of_words(name: &Name, args: &Items<Ty>) -> bool
    ensures { result ≡ (not (bytes_eq name.now (codes "WordArray")) || are_words (to_taus (map type_of args.now))) }
{
    name.bytes() != b"WordArray".as_slice() || words(args)
}

/// Whether every `WordArray` in a type is one of words (docs/LANGUAGE.md, "Typing", T14). It takes no memory.
#[cycle(arrays)]
pub fn has_word_arrays(ty: &Ty) -> bool
    ensures { result ≡ has_word_arrays_of (type_of ty.now) }
{
    match ty {
        Ty::Arrow(from, to) => has_word_arrays(from) && has_word_arrays(to),
        Ty::Abs(name, args, _) => is_of_words(name, args) && all_have_word_arrays(args),
        Ty::Variant(parts) => all_parts_have_word_arrays(parts),
        Ty::Fields(parts, _) => all_parts_have_word_arrays(parts),
        _ => true,
    }
}

// Whether each of these types has arrays of words alone.
#[tactic(auto, using(crate::proofs::FormSteps::arrays_steps))]
#[cycle(arrays)]
fn all_have_word_arrays(types: &Items<Ty>) -> bool
    ensures { result ≡ have_word_arrays (to_taus (map type_of types.now)) }
{
    for ty in types.as_slice() {
        if !has_word_arrays(ty) {
            return false;
        }
    }
    true
}

// Whether each of these parts has arrays of words alone.
#[tactic(auto, using(crate::proofs::FormSteps::part_arrays_steps))]
#[cycle(arrays)]
fn all_parts_have_word_arrays(parts: &Items<Part>) -> bool
    ensures { result ≡ parts_have_word_arrays (to_parts (map part_of parts.now)) }
{
    for part in parts.as_slice() {
        if !has_word_arrays(&part.ty) {
            return false;
        }
    }
    true
}

// How many nodes a type may have.
const LIMIT: usize = 1024;

/// Whether a type has no more than 1,024 nodes (docs/LANGUAGE.md, "Limits"). It takes no memory, and looks at no more nodes than
/// that and one.
pub fn is_small_enough(ty: &Ty) -> bool
    ensures { result ≡ is_small_enough_of (type_of ty.now) }
{
    left_after(ty, LIMIT + 1) > 0
}

// What is left of a number when each node of a type takes one, and 0 where there are more nodes. It stops where nothing is left.
#[cycle(left)]
fn left_after(ty: &Ty, left: usize) -> usize
    ensures { result ≡ left - nodes (type_of ty.now) }
{
    if left == 0 {
        return 0;
    }
    let left = left - 1;
    match ty {
        Ty::Arrow(from, to) => left_after(to, left_after(from, left)),
        Ty::Abs(_, args, _) => left_after_types(args, left),
        Ty::Variant(parts) => left_after_parts(parts, left),
        Ty::Fields(parts, _) => left_after_parts(parts, left),
        _ => left,
    }
}

// What these types leave.
#[tactic(auto, using(crate::proofs::FormSteps::nodes_steps))]
#[cycle(left)]
fn left_after_types(types: &Items<Ty>, left: usize) -> usize
    ensures { result ≡ left - nodes_all (to_taus (map type_of types.now)) }
{
    let mut rest = left;
    for ty in types.as_slice() {
        if rest == 0 {
            return 0;
        }
        rest = left_after(ty, rest);
    }
    rest
}

// What these parts leave.
#[tactic(auto, using(crate::proofs::FormSteps::part_nodes_steps))]
#[cycle(left)]
fn left_after_parts(parts: &Items<Part>, left: usize) -> usize
    ensures { result ≡ left - nodes_parts (to_parts (map part_of parts.now)) }
{
    let mut rest = left;
    for part in parts.as_slice() {
        if rest == 0 {
            return 0;
        }
        rest = left_after(&part.ty, rest);
    }
    rest
}
