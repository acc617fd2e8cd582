// The names that `cogent.h` declares, taken apart.
#![tactic(auto, using(crate::proofs::Prefixes::prefix_steps))]

ghost use Rattle.std.specs.Prelude.{◌≡◌, ◌≢◌, ℕ, List, ◌++◌, MatchOption};
ghost use Rattle.std.specs.Option.{option_map};
ghost use Rattle.cg_cmachine_def.specs.BuiltIns as built_ins;
ghost use Rattle.cg_cmachine_def.specs.BuiltIns.{first_named};
ghost use Rattle.cg_cmachine_builtins.specs.Called.{built_in_of};
ghost use Rattle.cg_cmachine_builtins.specs.Names.{actions, short_names, element_actions, narrow_names, prefixed, whole_actions, wide_names};

use crate::BuiltIn;
use cg_base::{Name, Word};

/// What stands behind a prefix of a text; None where it has no such prefix.
fn behind<'a>(prefix: &[u8], text: &'a [u8]) -> Option<&'a [u8]>
    ensures { MatchOption result ((rest : List ℕ) → text.now ≢ prefix.now ++ rest) (λ rest. text.now ≡ prefix.now ++ rest.now) }
{
    text.strip_prefix(prefix)
}

/// What is done to an array as a whole.
fn whole_action(word: Word, action: &[u8]) -> Option<BuiltIn>
    ensures { option_map built_in_of result ≡ first_named action.now (whole_actions word) }
{
    if action == b"create".as_slice() {
        Some(BuiltIn::Create(word))
    } else if action == b"free".as_slice() {
        Some(BuiltIn::FreeArray(word))
    } else if action == b"length".as_slice() {
        Some(BuiltIn::LengthOf(word))
    } else {
        None
    }
}

/// What is done to an element of an array.
fn element_action(word: Word, action: &[u8]) -> Option<BuiltIn>
    ensures { option_map built_in_of result ≡ first_named action.now (element_actions word) }
{
    if action == b"get".as_slice() {
        Some(BuiltIn::Get(word))
    } else if action == b"put".as_slice() {
        Some(BuiltIn::Put(word))
    } else {
        None
    }
}

/// What is done to an array.
fn array_action(word: Word, action: &[u8]) -> Option<BuiltIn>
    ensures { option_map built_in_of result ≡ first_named action.now (actions word) }
{
    match whole_action(word, action) {
        Some(built_in) => Some(built_in),
        None => element_action(word, action),
    }
}

/// What is done to an array of a width, whose names stand behind a prefix.
fn of_width(prefix: &[u8], word: Word, text: &[u8]) -> Option<BuiltIn>
    ensures { option_map built_in_of result ≡ first_named text.now (prefixed prefix.now (actions word)) }
{
    match behind(prefix, text) {
        None => None,
        Some(action) => array_action(word, action),
    }
}

/// What a name of 8 or 16 bits means that stands behind `cg_w`.
fn narrow(text: &[u8]) -> Option<BuiltIn>
    ensures { option_map built_in_of result ≡ first_named text.now narrow_names }
{
    match of_width(b"8_".as_slice(), Word::U8, text) {
        Some(built_in) => Some(built_in),
        None => of_width(b"16_".as_slice(), Word::U16, text),
    }
}

/// What a name of 32 or 64 bits means that stands behind `cg_w`.
fn wide(text: &[u8]) -> Option<BuiltIn>
    ensures { option_map built_in_of result ≡ first_named text.now wide_names }
{
    match of_width(b"32_".as_slice(), Word::U32, text) {
        Some(built_in) => Some(built_in),
        None => of_width(b"64_".as_slice(), Word::U64, text),
    }
}

/// What a name means that stands behind `cg_w`.
fn behind_array(text: &[u8]) -> Option<BuiltIn>
    ensures { option_map built_in_of result ≡ first_named text.now (narrow_names ++ wide_names) }
{
    match narrow(text) {
        Some(built_in) => Some(built_in),
        None => wide(text),
    }
}

/// What a name means that stands behind `cg_`.
fn behind_cg(text: &[u8]) -> Option<BuiltIn>
    ensures { option_map built_in_of result ≡ first_named text.now short_names }
{
    if text == b"new".as_slice() {
        return Some(BuiltIn::NewAlone);
    }
    if text == b"free".as_slice() {
        return Some(BuiltIn::Free);
    }
    match behind(b"w".as_slice(), text) {
        None => None,
        Some(rest) => behind_array(rest),
    }
}

/// The built-in of a name, whatever a program declares.
pub fn named(name: &Name) -> Option<BuiltIn>
    ensures { option_map built_in_of result ≡ built_ins.built_in name.now }
{
    match behind(b"cg_".as_slice(), name.bytes()) {
        None => None,
        Some(rest) => behind_cg(rest),
    }
}
