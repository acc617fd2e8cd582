// What a value is.
ghost use Rattle.std.specs.Prelude.{◌≡◌, ℕ, List};
ghost use Rattle.cg_base.specs.declared.place.Place.{Place};
ghost use Rattle.cg_heaptext_def.specs.Tokens.{Lexeme, sign as sign_of, upper};
ghost use Rattle.cg_heaptext_def.specs.Trees.{Heap, Written, bare, first};
ghost use Rattle.cg_heaptext_entries.specs.Index.{Before, IsIndex};
ghost use Rattle.cg_heaptext_values.specs.Values.{IsHead, StandsAt, Tells, begins, begins_at};
ghost use Rattle.cg_heaptext_values.specs.Turns.{name_kind, opening};
ghost use Rattle.cg_heaptext_values.specs.declared.turn.NameKind.TheVariants.{Constructor};
ghost use Rattle.cg_heaptext_values.specs.declared.turn.Opening.TheVariants.{Address, Record, Parenthesis};

use crate::layers::behind_layers;
use crate::list::{FieldsAt, ValuesAt};
use crate::turn::{NameKind, Opening, Turn, kind_of, opening_of, turn_of};
use cg_base::Place;
use cg_heaptext_entries::{Index, Numeral};
use cg_heaptext_lexer::{Lexer, Token, TokenKind};
use std::marker::Model;

/// A value of a heap file, by where it begins. A contract sees the cursor.
#[derive(Drop)]
pub struct ValueAt<'a> {
    pub(crate) lexer: Lexer<'a>,
}

impl<'a> Model for ValueAt<'a> {
    ghost use Rattle.cg_heaptext_lexer.specs.Next.{Cursor};

    ghost Value = { Cursor };

    ghost view = { λ v. v.lexer };
}

/// What a value is without parentheses round it (docs/LANGUAGE.md, "Heap files"): a number; a truth value; unit; `_`; an address, with the
/// place of its sign; a constructor without a payload, or with one; a tuple; an unboxed record.
#[derive(Drop)]
pub enum Head<'a> {
    Number(Numeral<'a>),
    Truth(bool),
    Nothing,
    Gone,
    Address(Place, Numeral<'a>),
    Constant(&'a [u8]),
    Applied(&'a [u8], ValueAt<'a>),
    Tuple(ValuesAt<'a>),
    Record(FieldsAt<'a>),
}

impl<'a> ValueAt<'a> {
    /// The argument of a heap file.
    pub fn argument(index: &Index<'a>) -> ValueAt<'a>
        ensures { (h : Heap) → IsIndex index.now h → StandsAt result h.argument }
    {
        ValueAt {
            lexer: index.argument.copy(),
        }
    }

    /// The place of its first token, a parenthesis maybe.
    pub fn place(&self) -> Place
        ensures { (v : Written) → StandsAt self.now v → result ≡ first v }
    {
        self.lexer.copy().next().place
    }

    /// What it is without parentheses round it. It takes time in proportion to its bytes.
    pub fn head(&self) -> Head<'a>
        ensures { (v : Written) → StandsAt self.now v → IsHead result (bare v) }
    {
        let mut lexer = behind_layers(&self.lexer);
        let token = lexer.next();
        match token.kind {
            TokenKind::Number => Head::Number(Numeral {
                place: token.place,
                digits: token.text,
            }),
            TokenKind::Upper => constructor(token.text, &lexer),
            TokenKind::Sign => bracket(&token, &lexer),
            TokenKind::Lower => Head::Gone,
            TokenKind::Unknown => Head::Gone,
            TokenKind::End => Head::Gone,
        }
    }
}

// Whether what does this may begin a value.
fn opens_value(turn: Turn) -> bool
    ensures { result ≡ begins_at turn }
{
    match turn {
        Turn::Opens | Turn::Stays => true,
        Turn::Closes | Turn::Parts | Turn::Over => false,
    }
}

// Whether a value stands at a lexer that may be the payload of what is before it.
fn begins_value(lexer: &Lexer) -> bool
    ensures { (ts : List Lexeme) → Before lexer.now ts → result ≡ begins ts }
{
    let token = lexer.copy().next();
    opens_value(turn_of(&token))
}

// A truth value, or a constructor, of which this is the name.
fn constructor<'a>(name: &'a [u8], lexer: &Lexer<'a>) -> Head<'a>
    ensures { (p : Place) → Tells (record { token = upper name.now; place = p }) lexer.now result }
{
    match kind_of(name) {
        NameKind::True => Head::Truth(true),
        NameKind::False => Head::Truth(false),
        NameKind::Constructor => applied(name, lexer),
    }
}

// A constructor of this name, with its payload where one stands behind it.
fn applied<'a>(name: &'a [u8], lexer: &Lexer<'a>) -> Head<'a>
    ensures { (p : Place) → name_kind name.now ≡ Constructor → Tells (record { token = upper name.now; place = p }) lexer.now result }
{
    if begins_value(lexer) {
        Head::Applied(
            name,
            ValueAt {
                lexer: lexer.copy(),
            },
        )
    } else {
        Head::Constant(name)
    }
}

// What begins with this sign.
fn bracket<'a>(sign: &Token<'a>, lexer: &Lexer<'a>) -> Head<'a>
    ensures { Tells (record { token = sign_of sign.now.text.now; place = sign.now.place }) lexer.now result }
{
    match opening_of(sign.text) {
        Opening::Address => address(sign.place, lexer),
        Opening::Record => record(lexer),
        Opening::Parenthesis => tuple(lexer),
    }
}

fn address<'a>(place: Place, lexer: &Lexer<'a>) -> Head<'a>
    ensures { (x : List ℕ) → opening x ≡ Address → Tells (record { token = sign_of x; place = place }) lexer.now result }
{
    let token = lexer.copy().next();
    Head::Address(
        place,
        Numeral {
            place: token.place,
            digits: token.text,
        },
    )
}

fn record<'a>(lexer: &Lexer<'a>) -> Head<'a>
    ensures { (x : List ℕ) (p : Place) → opening x ≡ Record → Tells (record { token = sign_of x; place = p }) lexer.now result }
{
    Head::Record(FieldsAt {
        lexer: lexer.copy(),
        more: true,
    })
}

// Unit, or the values of a tuple.
fn tuple<'a>(lexer: &Lexer<'a>) -> Head<'a>
    ensures { (x : List ℕ) (p : Place) → opening x ≡ Parenthesis → Tells (record { token = sign_of x; place = p }) lexer.now result }
{
    if begins_value(lexer) {
        Head::Tuple(ValuesAt {
            lexer: lexer.copy(),
            more: true,
        })
    } else {
        Head::Nothing
    }
}
