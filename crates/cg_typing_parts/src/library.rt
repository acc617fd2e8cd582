// The types of the library's functions. Each of these functions takes what its parts gave, so that a row of the table is one
// expression; want of memory in a part is that of the whole.
#![tactic(auto)]

ghost use Rattle.std.specs.Prelude.{◌≡◌, ◌++◌, [], ◌∷◌, List, map, Ok, IfOk};
ghost use Rattle.cg_base.specs.Types.{type_of, Tau, Piece, part_of, to_parts, word as word_type, arrow as arrow_type, fields as fields_type, variant as variant_type};
ghost use Rattle.cg_base.specs.declared.fun.Lib.TheVariants.{New, Free, Create, FreeArray, Length, Get, Put, Map, Fold, Seq32Break};
ghost use Rattle.cg_base.specs.declared.kind.Sigil.TheVariants.{U};
ghost use Rattle.cg_kinds.specs.Kinds.{bang as bang_of};
ghost use Rattle.cg_typing_parts.specs.Pieces.{Makes, HasPieces, untaken, with_carried, range_pieces, step_pieces, over_loop as over_loop_type, map_turn};
ghost use Rattle.cg_typing.specs.Library.{state as state_type, array as array_type, pair as pair_type, triple as triple_type, maybe as maybe_type, stopped as stopped_type, turn_of_array as turn_of_array_type, over_array as over_array_type, turn_of_loop as turn_of_loop_type, loop as loop_type, given as given_type, library_type as type_of_library};
ghost use Rattle.cg_typing.specs.Parts.{all_taken as all_taken_of};

use crate::named::all_taken;
use cg_base::{Items, Lib, Memory, Name, Part, Sigil, Ty, Word};
use cg_kinds::bang;
use std::alloc::Global;

// What a part of a type gave, and what a list of parts did.
type Made = Result<Ty, Memory>;

type Parts = Result<Items<Part>, Memory>;

// A value that is kept while another may fail.
fn kept<T: Drop, U, X>(value: T, other: Result<U, X>) -> Result<(T, U), X>
    ensures value { IfOk result (λ p. p.0 ≡ value) }
    ensures other { IfOk result (λ p. other ≡ Ok p.1) }
{
    match other {
        Ok(made) => Ok((value, made)),
        Err(error) => Err(error),
    }
}

// Two values, where there was memory for both.
fn both<T: Drop, U: Drop>(
    first: Result<T, Memory>,
    second: Result<U, Memory>,
) -> Result<(T, U), Memory>
    ensures first { IfOk result (λ p. first ≡ Ok p.0) }
    ensures second { IfOk result (λ p. second ≡ Ok p.1) }
{
    match first {
        Ok(value) => kept(value, second),
        Err(error) => {
            drop(second);
            Err(error)
        }
    }
}

// ---- forms of types

// A type in a box.
fn boxed(alloc: Global, ty: Made) -> Result<Box<Ty>, Memory>
    ensures { (t : Tau) → Makes ty t → IfOk result (λ b. type_of b.value ≡ t) }
{
    match ty {
        Ok(ty) => Ok(Box::new(alloc, ty)?),
        Err(error) => Err(error),
    }
}

// A type of functions.
fn arrow(alloc: Global, from: Made, to: Made) -> Made
    ensures { (a b : Tau) → Makes from a → Makes to b → Makes result (arrow_type a b) }
{
    match both(boxed(alloc, from), boxed(alloc, to)) {
        Ok((from, to)) => Ok(Ty::Arrow(from, to)),
        Err(error) => Err(error),
    }
}

// A word.
fn of_word(word: Word) -> Made
    ensures { Makes result (word_type word) }
{
    Ok(Ty::Word(word))
}

// The state of the allocator.
#[tactic(auto, unfolding(cg_base::specs::Types::to_taus))]
fn state(alloc: Global) -> Made
    ensures { Makes result state_type }
{
    let name = Name::new(alloc, b"SysState")?;
    Ok(Ty::Abs(name, Items::new(alloc), Sigil::W))
}

// One type more, where there was memory for it.
pub fn push_type(types: &mut Items<Ty>, ty: Made) -> Result<(), Memory>
    ensures { (t : Tau) → Makes ty t → IfOk result (λ _. map type_of types.new ≡ map type_of types.old ++ t ∷ []) }
{
    match ty {
        Ok(ty) => types.push(ty),
        Err(error) => Err(error),
    }
}

// An array of elements of this type.
#[tactic(auto, unfolding(cg_base::specs::Types::to_taus))]
fn array(alloc: Global, element: Made) -> Made
    ensures { (t : Tau) → Makes element t → Makes result (array_type t) }
{
    let mut args = Items::new(alloc);
    push_type(&mut args, element)?;
    match kept(args, Name::new(alloc, b"WordArray")) {
        Ok((args, name)) => Ok(Ty::Abs(name, args, Sigil::W)),
        Err(error) => Err(error),
    }
}

// What is observed.
fn observed(ty: Made) -> Made
    ensures { (t : Tau) → Makes ty t → Makes result (bang_of t) }
{
    match ty {
        Ok(ty) => Ok(bang(ty)),
        Err(error) => Err(error),
    }
}

// ---- parts

// A part that isn't taken.
fn part(alloc: Global, name: &[u8], ty: Made) -> Result<Part, Memory>
    ensures { (t : Tau) → Makes ty t → IfOk result (λ p. part_of p ≡ untaken name.now t) }
{
    match both(Name::new(alloc, name), ty) {
        Ok((name, ty)) => Ok(Part {
            name,
            ty,
            taken: false,
        }),
        Err(error) => Err(error),
    }
}

// These parts, and one more behind them.
fn push(parts: Items<Part>, part: Part) -> Parts
    ensures { HasPieces result (map part_of parts ++ part_of part ∷ []) }
{
    let mut parts = parts;
    parts.push(part)?;
    Ok(parts)
}

// The same of what they gave.
fn add(alloc: Global, parts: Parts, name: &[u8], ty: Made) -> Parts
    ensures { (ps : List Piece) (t : Tau) → HasPieces parts ps → Makes ty t → HasPieces result (ps ++ untaken name.now t ∷ []) }
{
    match both(parts, part(alloc, name, ty)) {
        Ok((parts, part)) => push(parts, part),
        Err(error) => Err(error),
    }
}

// One part.
fn one(alloc: Global, name: &[u8], ty: Made) -> Parts
    ensures { (t : Tau) → Makes ty t → HasPieces result (untaken name.now t ∷ []) }
{
    add(alloc, Ok(Items::new(alloc)), name, ty)
}

// An unboxed record of these fields.
fn unboxed(fields: Parts) -> Made
    ensures { (ps : List Piece) → HasPieces fields ps → Makes result (fields_type (to_parts ps) U) }
{
    match fields {
        Ok(fields) => Ok(Ty::Fields(fields, Sigil::U)),
        Err(error) => Err(error),
    }
}

// A variant of these alternatives.
fn variant(alternatives: Parts) -> Made
    ensures { (ps : List Piece) → HasPieces alternatives ps → Makes result (variant_type (to_parts ps)) }
{
    match alternatives {
        Ok(alternatives) => Ok(Ty::Variant(alternatives)),
        Err(error) => Err(error),
    }
}

// A tuple of two.
fn pair(alloc: Global, a: Made, b: Made) -> Made
    ensures { (s t : Tau) → Makes a s → Makes b t → Makes result (pair_type s t) }
{
    unboxed(add(alloc, one(alloc, b"p1", a), b"p2", b))
}

// A tuple of three.
fn triple(alloc: Global, a: Made, b: Made, c: Made) -> Made
    ensures { (s t u : Tau) → Makes a s → Makes b t → Makes c u → Makes result (triple_type s t u) }
{
    unboxed(add(alloc, add(alloc, one(alloc, b"p1", a), b"p2", b), b"p3", c))
}

// None, or Some of this type.
fn maybe(alloc: Global, ty: Made) -> Made
    ensures { (t : Tau) → Makes ty t → Makes result (maybe_type t) }
{
    variant(add(alloc, one(alloc, b"None", Ok(Ty::Unit)), b"Some", ty))
}

// Break of this type, or Iterate.
fn stopped(alloc: Global, ty: Made) -> Made
    ensures { (t : Tau) → Makes ty t → Makes result (stopped_type t) }
{
    variant(add(alloc, one(alloc, b"Break", ty), b"Iterate", Ok(Ty::Unit)))
}

// ---- type arguments

// A type argument by its position, or unit where there is none.
#[tactic(auto, using(crate::proofs::LibrarySteps::library_steps))]
fn given(alloc: Global, args: &Items<Ty>, at: usize) -> Made
    ensures { Makes result (given_type (map type_of args.now) at) }
{
    match args.get(at) {
        Some(ty) => ty.copy(alloc),
        None => Ok(Ty::Unit),
    }
}

// The first type argument with all its fields taken.
#[tactic(auto, using(crate::proofs::LibrarySteps::library_steps))]
fn given_taken(alloc: Global, args: &Items<Ty>) -> Made
    ensures { Makes result (all_taken_of (given_type (map type_of args.now) 0)) }
{
    match args.get(0) {
        Some(ty) => all_taken(alloc, ty),
        None => Ok(Ty::Unit),
    }
}

// An array of the first type argument.
fn given_array(alloc: Global, args: &Items<Ty>) -> Made
    ensures { Makes result (array_type (given_type (map type_of args.now) 0)) }
{
    array(alloc, given(alloc, args, 0))
}

// A tuple of the state and this type.
fn with_state(alloc: Global, ty: Made) -> Made
    ensures { (t : Tau) → Makes ty t → Makes result (pair_type state_type t) }
{
    pair(alloc, state(alloc), ty)
}

// These parts, and behind them the type arguments at these positions: what is carried on, and what is observed.
fn add_carried(alloc: Global, parts: Parts, args: &Items<Ty>, acc: usize, obsv: usize) -> Parts
    ensures { (ps : List Piece) → HasPieces parts ps → HasPieces result (with_carried ps (given_type (map type_of args.now) acc) (given_type (map type_of args.now) obsv)) }
{
    let parts = add(alloc, parts, b"acc", given(alloc, args, acc));
    add(alloc, parts, b"obsv", observed(given(alloc, args, obsv)))
}

// ---- functions over arrays

// What a function over an array takes.
fn turn_of_array(alloc: Global, args: &Items<Ty>) -> Made
    ensures { Makes result (turn_of_array_type (given_type (map type_of args.now) 0) (given_type (map type_of args.now) 1) (given_type (map type_of args.now) 2)) }
{
    let parts = one(alloc, b"elem", given(alloc, args, 0));
    unboxed(add_carried(alloc, parts, args, 1, 2))
}

// An array, and a range of it.
fn range_of(alloc: Global, array: Made) -> Parts
    ensures { (t : Tau) → Makes array t → HasPieces result (range_pieces t) }
{
    let parts = add(alloc, one(alloc, b"arr", array), b"frm", of_word(Word::U32));
    add(alloc, parts, b"to", of_word(Word::U32))
}

// The argument of `map` and of `fold`: an array, and the function that they call.
fn over_array(alloc: Global, array: Made, turn: Made, args: &Items<Ty>) -> Made
    ensures { (s t : Tau) → Makes array s → Makes turn t → Makes result (over_array_type s t (given_type (map type_of args.now) 1) (given_type (map type_of args.now) 2)) }
{
    let parts = add(alloc, range_of(alloc, array), b"f", turn);
    unboxed(add_carried(alloc, parts, args, 1, 2))
}

// ---- loops

// What the function of a loop takes.
fn turn_of_loop(alloc: Global, word: Word, args: &Items<Ty>, obsv: usize) -> Made
    ensures { Makes result (turn_of_loop_type word (given_type (map type_of args.now) 0) (given_type (map type_of args.now) obsv)) }
{
    let parts = one(alloc, b"acc", given(alloc, args, 0));
    let parts = add(alloc, parts, b"obsv", observed(given(alloc, args, obsv)));
    unboxed(add(alloc, parts, b"idx", of_word(word)))
}

// Where a loop begins and ends, and its step.
fn steps(alloc: Global, word: Word) -> Parts
    ensures { HasPieces result (step_pieces word) }
{
    let parts = add(
        alloc,
        one(alloc, b"frm", of_word(word)),
        b"to",
        of_word(word),
    );
    add(alloc, parts, b"step", of_word(word))
}

// What a loop takes, with the function that it calls.
fn over_loop(alloc: Global, word: Word, turn: Made, args: &Items<Ty>, obsv: usize) -> Made
    ensures { (t : Tau) → Makes turn t → Makes result (over_loop_type word t (given_type (map type_of args.now) 0) (given_type (map type_of args.now) obsv)) }
{
    let parts = add(alloc, steps(alloc, word), b"f", turn);
    unboxed(add_carried(alloc, parts, args, 0, obsv))
}

// A loop, of which each turn gives this type, and so does the whole.
fn looped(alloc: Global, word: Word, args: &Items<Ty>, obsv: usize, end: Made, whole: Made) -> Made
    ensures { (t : Tau) → Makes end t → Makes whole t → Makes result (loop_type word (given_type (map type_of args.now) 0) (given_type (map type_of args.now) obsv) t) }
{
    let turn = arrow(alloc, turn_of_loop(alloc, word, args, obsv), end);
    arrow(alloc, over_loop(alloc, word, turn, args, obsv), whole)
}

// ---- one function for each row

// `New`
fn new_type(alloc: Global, args: &Items<Ty>) -> Made
    ensures { Makes result (type_of_library New (map type_of args.now)) }
{
    let made = maybe(alloc, given_taken(alloc, args));
    arrow(alloc, state(alloc), with_state(alloc, made))
}

// `Free`
fn free_type(alloc: Global, args: &Items<Ty>) -> Made
    ensures { Makes result (type_of_library Free (map type_of args.now)) }
{
    let from = with_state(alloc, given_taken(alloc, args));
    arrow(alloc, from, state(alloc))
}

// `Create`
fn create_type(alloc: Global, args: &Items<Ty>) -> Made
    ensures { Makes result (type_of_library Create (map type_of args.now)) }
{
    let from = with_state(alloc, of_word(Word::U32));
    let made = maybe(alloc, given_array(alloc, args));
    arrow(alloc, from, with_state(alloc, made))
}

// `FreeArray`
fn free_array_type(alloc: Global, args: &Items<Ty>) -> Made
    ensures { Makes result (type_of_library FreeArray (map type_of args.now)) }
{
    let from = with_state(alloc, given_array(alloc, args));
    arrow(alloc, from, state(alloc))
}

// `Length`
fn length_type(alloc: Global, args: &Items<Ty>) -> Made
    ensures { Makes result (type_of_library Length (map type_of args.now)) }
{
    let from = observed(given_array(alloc, args));
    arrow(alloc, from, of_word(Word::U32))
}

// `Get`
fn get_type(alloc: Global, args: &Items<Ty>) -> Made
    ensures { Makes result (type_of_library Get (map type_of args.now)) }
{
    let array = observed(given_array(alloc, args));
    let from = pair(alloc, array, of_word(Word::U32));
    arrow(alloc, from, given(alloc, args, 0))
}

// `Put`
fn put_type(alloc: Global, args: &Items<Ty>) -> Made
    ensures { Makes result (type_of_library Put (map type_of args.now)) }
{
    let array = given_array(alloc, args);
    let from = triple(alloc, array, of_word(Word::U32), given(alloc, args, 0));
    arrow(alloc, from, given_array(alloc, args))
}

// The function that `map` calls.
fn turn_of_map(alloc: Global, args: &Items<Ty>) -> Made
    ensures { Makes result (map_turn (map type_of args.now)) }
{
    let to = pair(alloc, given(alloc, args, 0), given(alloc, args, 1));
    arrow(alloc, turn_of_array(alloc, args), to)
}

// `Map`
fn map_type(alloc: Global, args: &Items<Ty>) -> Made
    ensures { Makes result (type_of_library Map (map type_of args.now)) }
{
    let array = given_array(alloc, args);
    let from = over_array(alloc, array, turn_of_map(alloc, args), args);
    let to = pair(alloc, given_array(alloc, args), given(alloc, args, 1));
    arrow(alloc, from, to)
}

// `Fold`
fn fold_type(alloc: Global, args: &Items<Ty>) -> Made
    ensures { Makes result (type_of_library Fold (map type_of args.now)) }
{
    let array = observed(given_array(alloc, args));
    let turn = arrow(alloc, turn_of_array(alloc, args), given(alloc, args, 1));
    let from = over_array(alloc, array, turn, args);
    arrow(alloc, from, given(alloc, args, 1))
}

// `Seq32` and `Seq64`
fn seq_type(alloc: Global, word: Word, args: &Items<Ty>) -> Made
    ensures { Makes result (loop_type word (given_type (map type_of args.now) 0) (given_type (map type_of args.now) 1) (given_type (map type_of args.now) 0)) }
{
    let end = given(alloc, args, 0);
    looped(alloc, word, args, 1, end, given(alloc, args, 0))
}

// What `Seq32Break` gives.
fn broken(alloc: Global, args: &Items<Ty>) -> Made
    ensures { Makes result (pair_type (given_type (map type_of args.now) 0) (stopped_type (given_type (map type_of args.now) 1))) }
{
    let end = stopped(alloc, given(alloc, args, 1));
    pair(alloc, given(alloc, args, 0), end)
}

// `Seq32Break`
fn seq_break_type(alloc: Global, args: &Items<Ty>) -> Made
    ensures { Makes result (type_of_library Seq32Break (map type_of args.now)) }
{
    let end = broken(alloc, args);
    looped(alloc, Word::U32, args, 2, end, broken(alloc, args))
}

/// The type of a function of the library at these type arguments; one that isn't there is unit (docs/LANGUAGE.md, "Typing"). Want of
/// memory is its one refusal.
pub fn library_type(alloc: Global, lib: Lib, args: &Items<Ty>) -> Result<Ty, Memory>
    ensures { IfOk result (λ t. type_of t ≡ type_of_library lib (map type_of args.now)) }
{
    match lib {
        Lib::New => new_type(alloc, args),
        Lib::Free => free_type(alloc, args),
        Lib::Create => create_type(alloc, args),
        Lib::FreeArray => free_array_type(alloc, args),
        Lib::Length => length_type(alloc, args),
        Lib::Get => get_type(alloc, args),
        Lib::Put => put_type(alloc, args),
        Lib::Map => map_type(alloc, args),
        Lib::Fold => fold_type(alloc, args),
        Lib::Seq32 => seq_type(alloc, Word::U32, args),
        Lib::Seq64 => seq_type(alloc, Word::U64, args),
        Lib::Seq32Break => seq_break_type(alloc, args),
    }
}
