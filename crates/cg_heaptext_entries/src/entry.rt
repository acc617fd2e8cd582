// Where the entries of a heap file stand.
use cg_base::{Items, Place};
use cg_heaptext_lexer::Lexer;

/// A number as it is written: its place, and its digits.
#[derive(Clone, Copy)]
pub struct Numeral<'a> {
    pub place: Place,
    pub digits: &'a [u8],
}

/// An entry: the place of its sign, its address, and where its cell begins.
#[derive(Drop)]
pub struct EntryAt<'a> {
    pub place: Place,
    pub address: Numeral<'a>,
    pub cell: Lexer<'a>,
}

/// The entries of a heap file, in its order, and where its argument begins.
#[derive(Drop)]
pub struct Index<'a> {
    pub entries: Items<EntryAt<'a>>,
    pub argument: Lexer<'a>,
}
