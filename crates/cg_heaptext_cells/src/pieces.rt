// What the tokens of a record give that nobody reaches.
ghost use Rattle.std.specs.Prelude.{◌≡◌, ◌++◌, map, None, OnOk, IfOk};
ghost use Rattle.cg_heaptext_def.specs.Small.{most_word};
ghost use Rattle.cg_heaptext_places.specs.Noted.{noted_all};
ghost use Rattle.cg_heaptext_cells.specs.ByKind.{read_by};
ghost use Rattle.cg_heaptext_cells.specs.Numbers.{numeral_read, places_above};
ghost use Rattle.cg_heaptext_cells.specs.Pieces as pieces;
ghost use Rattle.cg_heaptext_cells.specs.Pieces.{counted_in, given_scalar, pieces_of};
ghost use Rattle.cg_heaptext_cells.specs.declared.pieces.Gift.TheVariants.{Nothing};
ghost use Rattle.cg_heaptext_cells.specs.declared.pieces.Held.TheVariants.{Free};

use crate::numbers::{note, number};
use cg_base::{Items, Memory, Place};
use cg_heap::Scalar;
use cg_heaptext_lexer::{Token, TokenKind};

/// What stands before a token, where that matters: the sign of an address, a bracket that opens, or the name of a constructor.
#[derive(Clone, Copy)]
pub enum Held {
    Free,
    At,
    Bracket,
    Name,
}

/// What a token gives: nothing, its number as a word or as an address, or a scalar that isn't written as a number.
#[derive(Clone, Copy)]
pub enum Gift {
    Nothing,
    Counted,
    Addressed,
    Plain(Scalar),
}

fn is_truth(text: &[u8]) -> bool
    ensures { result ≡ pieces.is_truth text.now }
{
    text == b"True".as_slice() || text == b"False".as_slice()
}

fn sign_held(text: &[u8]) -> Held
    ensures { result ≡ pieces.sign_held text.now }
{
    if text == b"@".as_slice() {
        Held::At
    } else if text == b"(".as_slice() {
        Held::Bracket
    } else {
        Held::Free
    }
}

fn upper_held(text: &[u8]) -> Held
    ensures { result ≡ pieces.upper_held text.now }
{
    if is_truth(text) {
        Held::Free
    } else {
        Held::Name
    }
}

pub(crate) fn held_of(token: &Token) -> Held
    ensures { result ≡ read_by pieces.held Free token.now.kind token.now.text.now }
{
    match token.kind {
        TokenKind::Number | TokenKind::Lower | TokenKind::Unknown | TokenKind::End => Held::Free,
        TokenKind::Upper => upper_held(token.text),
        TokenKind::Sign => sign_held(token.text),
    }
}

fn number_gift(held: Held) -> Gift
    ensures { result ≡ pieces.number_gift held }
{
    match held {
        Held::At => Gift::Addressed,
        Held::Free | Held::Bracket | Held::Name => Gift::Counted,
    }
}

fn lower_gift(text: &[u8]) -> Gift
    ensures { result ≡ pieces.lower_gift text.now }
{
    if text == b"_".as_slice() {
        Gift::Plain(Scalar::Unset)
    } else {
        Gift::Nothing
    }
}

fn upper_gift(text: &[u8]) -> Gift
    ensures { result ≡ pieces.upper_gift text.now }
{
    if text == b"True".as_slice() {
        Gift::Plain(Scalar::Word(1))
    } else if text == b"False".as_slice() {
        Gift::Plain(Scalar::Word(0))
    } else {
        Gift::Nothing
    }
}

// A sign that stands behind a value.
fn is_closer(text: &[u8]) -> bool
    ensures { result ≡ pieces.is_closer text.now }
{
    text == b",".as_slice() || text == b")".as_slice() || text == b"}".as_slice()
}

fn closer_gift(held: Held, text: &[u8]) -> Gift
    ensures { result ≡ pieces.closer_gift held text.now }
{
    match held {
        Held::Name => Gift::Plain(Scalar::Word(0)),
        Held::Bracket if text == b")".as_slice() => Gift::Plain(Scalar::Word(0)),
        Held::Bracket | Held::Free | Held::At => Gift::Nothing,
    }
}

fn sign_gift(held: Held, text: &[u8]) -> Gift
    ensures { result ≡ pieces.sign_gift held text.now }
{
    if is_closer(text) {
        closer_gift(held, text)
    } else {
        Gift::Nothing
    }
}

pub(crate) fn gift_of(held: Held, token: &Token) -> Gift
    ensures { result ≡ read_by (pieces.gift held) Nothing token.now.kind token.now.text.now }
{
    match token.kind {
        TokenKind::Number => number_gift(held),
        TokenKind::Lower => lower_gift(token.text),
        TokenKind::Upper => upper_gift(token.text),
        TokenKind::Sign => sign_gift(held, token.text),
        TokenKind::Unknown | TokenKind::End => Gift::Nothing,
    }
}

// More than 2^64 - 1 records that are open take more memory than there is.
fn deeper(depth: u64) -> Result<Option<u64>, Memory>
    ensures { IfOk result (λ r. r ≡ pieces.deeper depth) }
{
    match depth.checked_add(1) {
        Some(more) => Ok(Some(more)),
        None => Err(Memory),
    }
}

fn less(depth: u64) -> Option<u64>
    ensures { result ≡ pieces.less depth }
{
    if depth == 0 { None } else { Some(depth - 1) }
}

fn sign_depth(text: &[u8], depth: u64) -> Result<Option<u64>, Memory>
    ensures { IfOk result (λ r. r ≡ pieces.sign_depth text.now depth) }
{
    if text == b"#{".as_slice() {
        deeper(depth)
    } else if text == b"}".as_slice() {
        Ok(less(depth))
    } else {
        Ok(Some(depth))
    }
}

// How many unboxed records are open behind a token; `None` behind the cell, and where no token stands.
pub(crate) fn depth_behind(token: &Token, depth: u64) -> Result<Option<u64>, Memory>
    ensures { IfOk result (λ r. r ≡ read_by (pieces.depth_at depth) None token.now.kind token.now.text.now) }
{
    match token.kind {
        TokenKind::Number | TokenKind::Lower | TokenKind::Upper => Ok(Some(depth)),
        TokenKind::Sign => sign_depth(token.text, depth),
        TokenKind::Unknown | TokenKind::End => Ok(None),
    }
}

// Adds the scalar that a token gives, if it gives one.
pub(crate) fn add(slots: &mut Items<Scalar>, gift: Gift, token: &Token) -> Result<(), Memory>
    ensures { OnOk result (slots.new ≡ slots.old ++ map given_scalar (pieces_of gift (numeral_read token.now))) }
{
    match gift {
        Gift::Nothing => Ok(()),
        Gift::Counted => slots.push(Scalar::Word(number(token.text))),
        Gift::Addressed => slots.push(Scalar::Address(number(token.text))),
        Gift::Plain(scalar) => slots.push(scalar),
    }
}

// Notes the place of a number above 2^64 - 1 that is no address.
pub(crate) fn note_gift(over: Option<Place>, gift: Gift, token: &Token) -> Option<Place>
    ensures { result ≡ noted_all over (places_above most_word (counted_in (pieces_of gift (numeral_read token.now)))) }
{
    match gift {
        Gift::Counted => note(over, token, u64::MAX),
        Gift::Nothing | Gift::Addressed | Gift::Plain(_) => over,
    }
}
