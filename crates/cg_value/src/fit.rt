// Which values fit a type, without functions and users' abstract types.
#![tactic(auto, unfolding(crate::specs::Fits::fits, crate::specs::Fits::fits_alternative, crate::specs::Fits::fits_fields, cg_base::specs::Types::to_parts, cg_base::specs::Types::to_taus), using(crate::proofs::FitSteps::fit_steps))]

ghost use Rattle.std.specs.Prelude.{◌≡◌, ◌^◌, map, nat_lt, if◌then◌else◌};
ghost use Rattle.std.specs.List.{list_all};
ghost use Rattle.cg_base.specs.declared.kind.Sigil.TheVariants.{U};
ghost use Rattle.cg_base.specs.Types as types;
ghost use Rattle.cg_base.specs.Types.{part_of, to_parts, to_taus, type_of};
ghost use Rattle.cg_base.specs.Words.{bits};
ghost use Rattle.cg_value.specs.Fits.{fits as fits_type, fits_abstract, fits_alternative as fits_named, fits_fields, is_array, is_gone};
ghost use Rattle.cg_value.specs.Foreign.{first_order};
ghost use Rattle.cg_value.specs.NoForeign.{no_foreign};
ghost use Rattle.cg_value.specs.Values.{to_vals, value_of};

use crate::Value;
use cg_base::{Items, Name, Part, Ty, Word};

/// How many elements an array may have.
const MOST_ELEMENTS: usize = 1_048_576;

// Whether a number is a word of so many bits.
fn is_word(word: Word, number: u64) -> bool
    ensures { result ≡ nat_lt number (2 ^ bits word) }
{
    match word {
        Word::U8 => number < 0x100,
        Word::U16 => number < 0x1_0000,
        Word::U32 => number < 0x1_0000_0000,
        Word::U64 => true,
    }
}

// Whether all of them are words.
fn are_words(word: Word, numbers: &[u64]) -> bool
    ensures { result ≡ list_all (λ n. nat_lt n (2 ^ bits word)) numbers.now }
{
    for number in numbers {
        if !is_word(word, *number) {
            return false;
        }
    }
    true
}

// Whether a value is an array of words, and none too long.
fn is_word_array(word: Word, value: &Value) -> bool
    ensures { result ≡ is_array word (value_of value.now) }
{
    match value {
        Value::Array(numbers) => {
            numbers.len() <= MOST_ELEMENTS && are_words(word, numbers.as_slice())
        }
        _ => false,
    }
}

// Whether a value fits a type that is declared beforehand.
fn fits_declared(value: &Value, name: &Name, args: &Items<Ty>) -> bool
    ensures { result ≡ fits_abstract (first_order no_foreign) name.now (to_taus (map type_of args.now)) (value_of value.now) }
{
    match args.as_slice() {
        [] => name.bytes() == b"SysState".as_slice() && matches!(value, Value::Answers(_)),
        [Ty::Word(word)] => name.bytes() == b"WordArray".as_slice() && is_word_array(*word, value),
        _ => false,
    }
}

// Whether a value is a word.
fn fits_word(value: &Value, word: Word) -> bool
    ensures { result ≡ fits_type (first_order no_foreign) (types.word word) (value_of value.now) }
{
    match value {
        Value::Num(number) => is_word(word, *number),
        _ => false,
    }
}

// Whether a value is a truth value.
fn fits_truth(value: &Value) -> bool
    ensures { result ≡ fits_type (first_order no_foreign) types.bool (value_of value.now) }
{
    match value {
        Value::Num(number) => *number < 2,
        _ => false,
    }
}

/// Whether a value fits a type in which no value of a function and of a user's abstract type is (docs/LANGUAGE.md, "Values"): at such
/// types nothing fits. It takes no memory.
#[cycle(fits)]
pub fn fits(value: &Value, ty: &Ty) -> bool
    ensures { result ≡ fits_type (first_order no_foreign) (type_of ty.now) (value_of value.now) }
{
    match ty {
        Ty::Unit => matches!(value, Value::Unit),
        Ty::Word(word) => fits_word(value, *word),
        Ty::Bool => fits_truth(value),
        Ty::Abs(name, args, _) => fits_declared(value, name, args),
        Ty::Variant(alternatives) => fits_variant(value, alternatives.as_slice()),
        Ty::Fields(parts, _) => fits_record(value, parts.as_slice()),
        Ty::Var(_) | Ty::Seen(_) | Ty::Arrow(_, _) => false,
    }
}

// Whether a value is one of these alternatives.
#[cycle(fits)]
fn fits_variant(value: &Value, alternatives: &[Part]) -> bool
    ensures { result ≡ fits_type (first_order no_foreign) (types.variant (to_parts (map part_of alternatives.now))) (value_of value.now) }
{
    match value {
        Value::Variant(name, payload) => fits_alternative(name, payload, alternatives),
        _ => false,
    }
}

// Whether a payload fits the alternative of a name.
#[cycle(fits)]
fn fits_alternative(name: &Name, payload: &Value, alternatives: &[Part]) -> bool
    ensures { result ≡ fits_named (first_order no_foreign) name.now (to_parts (map part_of alternatives.now)) (value_of payload.now) }
{
    for alternative in alternatives {
        if name.same(&alternative.name) {
            return !alternative.taken && fits(payload, &alternative.ty);
        }
    }
    false
}

// Whether a value is a record of these fields.
#[cycle(fits)]
fn fits_record(value: &Value, parts: &[Part]) -> bool
    ensures { result ≡ fits_type (first_order no_foreign) (types.fields (to_parts (map part_of parts.now)) U) (value_of value.now) }
{
    match value {
        Value::Fields(values) => fit_fields(values.as_slice(), parts),
        _ => false,
    }
}

// Whether there are as many values as fields, and each fits its field.
#[cycle(fits)]
fn fit_fields(values: &[Value], parts: &[Part]) -> bool
    ensures { result ≡ fits_fields (first_order no_foreign) (to_parts (map part_of parts.now)) (to_vals (map value_of values.now)) }
{
    if values.len() != parts.len() {
        return false;
    }
    for i in 0..values.len() {
        if !fits_field(&values[i], &parts[i]) {
            return false;
        }
    }
    true
}

// Whether a value fits a field: it is gone where this is taken.
#[cycle(fits)]
fn fits_field(value: &Value, part: &Part) -> bool
    ensures { result ≡ if part.now.taken then is_gone (value_of value.now) else fits_type (first_order no_foreign) (type_of part.now.ty) (value_of value.now) }
{
    if part.taken {
        matches!(value, Value::Gone)
    } else {
        fits(value, &part.ty)
    }
}
