// What is declared beforehand.
ghost use Rattle.std.specs.Prelude.{◌≡◌, Some, []};
ghost use Rattle.std.specs.Option.{option_map};
ghost use Rattle.cg_resolve_def.specs.Declared.{is_variable, looked_up, plain_types, type_arity, library};
ghost use Rattle.cg_resolve_declared.specs.Views.{plain_of, library_of};

use cg_base::{Lib, Word};

/// A type that is declared beforehand and has no arguments (docs/LANGUAGE.md, "Names").
#[derive(Clone, Copy)]
pub enum Plain {
    Word(Word),
    Bool,
    SysState,
}

/// A function of the library, with the number of its type arguments (docs/LANGUAGE.md, "Names").
#[derive(Clone, Copy)]
pub struct LibraryFunction {
    pub lib: Lib,
    pub arity: usize,
}

/// The type without arguments that is declared beforehand under this name, where there is one. It takes no memory.
pub fn plain_type(name: &[u8]) -> Option<Plain>
    ensures { option_map plain_of result ≡ looked_up plain_types name.now }
{
    if name == b"U8".as_slice() {
        Some(Plain::Word(Word::U8))
    } else if name == b"U16".as_slice() {
        Some(Plain::Word(Word::U16))
    } else if name == b"U32".as_slice() {
        Some(Plain::Word(Word::U32))
    } else if name == b"U64".as_slice() {
        Some(Plain::Word(Word::U64))
    } else if name == b"Bool".as_slice() {
        Some(Plain::Bool)
    } else if name == b"SysState".as_slice() {
        Some(Plain::SysState)
    } else {
        None
    }
}

/// How many arguments the type has that is declared beforehand under this name, where there is one. It takes no memory.
pub fn arity_beforehand(name: &[u8]) -> Option<usize>
    ensures { result ≡ type_arity [] name.now }
{
    if plain_type(name).is_some() {
        Some(0)
    } else if name == b"WordArray".as_slice() {
        Some(1)
    } else {
        None
    }
}

/// The function of the library of this name, where there is one. It takes no memory.
pub fn library_function(name: &[u8]) -> Option<LibraryFunction>
    ensures { option_map library_of result ≡ looked_up library name.now }
{
    if name == b"new".as_slice() {
        with_arity(Lib::New, 1)
    } else if name == b"free".as_slice() {
        with_arity(Lib::Free, 1)
    } else if name == b"wordarray_create".as_slice() {
        with_arity(Lib::Create, 1)
    } else if name == b"wordarray_free".as_slice() {
        with_arity(Lib::FreeArray, 1)
    } else if name == b"wordarray_length".as_slice() {
        with_arity(Lib::Length, 1)
    } else if name == b"wordarray_get".as_slice() {
        with_arity(Lib::Get, 1)
    } else if name == b"wordarray_put".as_slice() {
        with_arity(Lib::Put, 1)
    } else if name == b"wordarray_map".as_slice() {
        with_arity(Lib::Map, 3)
    } else if name == b"wordarray_fold".as_slice() {
        with_arity(Lib::Fold, 3)
    } else if name == b"seq32".as_slice() {
        with_arity(Lib::Seq32, 2)
    } else if name == b"seq64".as_slice() {
        with_arity(Lib::Seq64, 2)
    } else if name == b"seq32_break".as_slice() {
        with_arity(Lib::Seq32Break, 3)
    } else {
        None
    }
}

// A function of the library.
fn with_arity(lib: Lib, arity: usize) -> Option<LibraryFunction>
    ensures { result ≡ Some (record { lib = lib; arity = arity }) }
{
    Some(LibraryFunction { lib, arity })
}

/// Whether a name of a type is that of a type variable: it begins with no large letter. It takes no memory.
pub fn is_variable(name: &[u8]) -> bool
    ensures { result ≡ is_variable name.now }
{
    match name.first() {
        None => true,
        Some(byte) => !byte.is_ascii_uppercase(),
    }
}
