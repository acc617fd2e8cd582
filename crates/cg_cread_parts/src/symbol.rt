// What the grammar sees of a token.
ghost use Rattle.std.specs.Prelude.{◌≡◌};
ghost use Rattle.std.specs.List.{list_all};
ghost use Rattle.cg_base.specs.Bytes.{digit};
ghost use Rattle.cg_cread_lexer.specs.Next.{lexeme};
ghost use Rattle.cg_cread_parts.specs.Symbols as machine;
ghost use Rattle.cg_cread_parts.specs.Views.{symbol_view};

use cg_base::{Word, is_digit, literal};
use cg_cread_lexer::{Token, TokenKind};
use cg_ctree::COp;

/// A word of C, other than the types of words.
#[derive(Clone, Copy)]
pub enum Keyword {
    Struct,
    Return,
    If,
    Else,
    While,
    Switch,
    Case,
    Break,
    Sizeof,
}

/// A token by its use: a kind holds its text only where a tree keeps it. `Other` is a token that no program has.
#[derive(Clone, Copy)]
pub enum Symbol<'a> {
    Name(&'a [u8]),
    Word(Word),
    Key(Keyword),
    Number(u64),
    Count(u64),
    Opening,
    Closing,
    Begin,
    End,
    Comma,
    Semicolon,
    Equals,
    Tilde,
    Colon,
    Dot,
    Arrow,
    Op(COp),
    FirstInclude,
    SecondInclude,
    Other,
}

/// The symbol of a token. What is no token, `Unknown` and `End`, is taken for a sign with its text, as the lexer's words say.
pub fn symbol_at<'a>(token: &Token<'a>) -> Symbol<'a>
    ensures { symbol_view result ≡ machine.symbol_of (lexeme token.now).token }
{
    match token.kind {
        TokenKind::Name => Symbol::Name(token.text),
        TokenKind::Word => word(token.text),
        TokenKind::Plain => count(token.text),
        TokenKind::Literal => number(token.text),
        TokenKind::Sign | TokenKind::Unknown | TokenKind::End => sign(token.text),
        TokenKind::Line => line(token.text),
    }
}

// The symbol of a word.
fn word<'a>(text: &'a [u8]) -> Symbol<'a>
    ensures { symbol_view result ≡ machine.word_symbol text.now }
{
    if text == b"uint8_t".as_slice() {
        Symbol::Word(Word::U8)
    } else if text == b"uint16_t".as_slice() {
        Symbol::Word(Word::U16)
    } else if text == b"uint32_t".as_slice() {
        Symbol::Word(Word::U32)
    } else if text == b"uint64_t".as_slice() {
        Symbol::Word(Word::U64)
    } else if text == b"struct".as_slice() {
        Symbol::Key(Keyword::Struct)
    } else if text == b"return".as_slice() {
        Symbol::Key(Keyword::Return)
    } else if text == b"switch".as_slice() {
        Symbol::Key(Keyword::Switch)
    } else if text == b"sizeof".as_slice() {
        Symbol::Key(Keyword::Sizeof)
    } else {
        short_key(text)
    }
}

// The symbol of a word of five letters or less.
fn short_key<'a>(text: &'a [u8]) -> Symbol<'a>
    ensures { symbol_view result ≡ machine.short_symbol text.now }
{
    if text == b"if".as_slice() {
        Symbol::Key(Keyword::If)
    } else if text == b"else".as_slice() {
        Symbol::Key(Keyword::Else)
    } else if text == b"while".as_slice() {
        Symbol::Key(Keyword::While)
    } else if text == b"case".as_slice() {
        Symbol::Key(Keyword::Case)
    } else if text == b"break".as_slice() {
        Symbol::Key(Keyword::Break)
    } else {
        Symbol::Other
    }
}

// Whether there is a digit too many in front: a zero before other digits, or no digit at all.
fn leads(text: &[u8]) -> bool
    ensures { result ≡ machine.leads text.now }
{
    match text {
        [] => true,
        [_] => false,
        [first, ..] => *first == b'0',
    }
}

fn all_digits(text: &[u8]) -> bool
    ensures { result ≡ list_all digit text.now }
{
    text.iter().all(|byte| is_digit(*byte))
}

// Whether these bytes are the digits of a number, with no leading zero.
fn is_decimal(text: &[u8]) -> bool
    ensures { result ≡ machine.is_decimal text.now }
{
    all_digits(text) && !leads(text)
}

// The number that these bytes are written of, where it is at most 2^64 - 1.
fn number_at(text: &[u8]) -> Option<u64>
    ensures { result ≡ machine.number_of text.now }
{
    if is_decimal(text) {
        literal(text)
    } else {
        None
    }
}

fn number<'a>(text: &'a [u8]) -> Symbol<'a>
    ensures { symbol_view result ≡ machine.number_symbol (machine.number_of text.now) }
{
    match number_at(text) {
        Some(number) => Symbol::Number(number),
        None => Symbol::Other,
    }
}

fn count<'a>(text: &'a [u8]) -> Symbol<'a>
    ensures { symbol_view result ≡ machine.count_symbol (machine.number_of text.now) }
{
    match number_at(text) {
        Some(number) => Symbol::Count(number),
        None => Symbol::Other,
    }
}

// The operation of a sign.
fn operation(text: &[u8]) -> Option<COp>
    ensures { result ≡ machine.op_of text.now }
{
    match text {
        b"+" => Some(COp::Add),
        b"-" => Some(COp::Sub),
        b"*" => Some(COp::Mul),
        b"/" => Some(COp::Div),
        b"%" => Some(COp::Rem),
        b"&" => Some(COp::And),
        b"|" => Some(COp::Or),
        b"^" => Some(COp::Xor),
        b"<<" => Some(COp::Shl),
        b">>" => Some(COp::Shr),
        b"==" => Some(COp::Eq),
        b"!=" => Some(COp::Ne),
        b"<" => Some(COp::Lt),
        b">" => Some(COp::Gt),
        b"<=" => Some(COp::Le),
        b">=" => Some(COp::Ge),
        _ => None,
    }
}

fn sign<'a>(text: &'a [u8]) -> Symbol<'a>
    ensures { symbol_view result ≡ machine.sign_symbol text.now }
{
    match text {
        b"(" => Symbol::Opening,
        b")" => Symbol::Closing,
        b"{" => Symbol::Begin,
        b"}" => Symbol::End,
        b"," => Symbol::Comma,
        b";" => Symbol::Semicolon,
        b"=" => Symbol::Equals,
        b"~" => Symbol::Tilde,
        b":" => Symbol::Colon,
        b"." => Symbol::Dot,
        b"->" => Symbol::Arrow,
        _ => match operation(text) {
            Some(op) => Symbol::Op(op),
            None => Symbol::Other,
        },
    }
}

fn line<'a>(text: &'a [u8]) -> Symbol<'a>
    ensures { symbol_view result ≡ machine.line_symbol text.now }
{
    if text == b"#include <stdint.h>".as_slice() {
        Symbol::FirstInclude
    } else if text == b"#include \"cogent.h\"".as_slice() {
        Symbol::SecondInclude
    } else {
        Symbol::Other
    }
}

impl<'a> Symbol<'a> {
    /// Whether it is of an operand: a name, a number, a dot or an arrow.
    pub fn is_part(self) -> bool
        ensures { result ≡ machine.is_part (symbol_view self.entry) }
    {
        matches!(
            self,
            Symbol::Name(_) | Symbol::Number(_) | Symbol::Dot | Symbol::Arrow
        )
    }

    /// Whether a type begins with it.
    pub fn is_type(self) -> bool
        ensures { result ≡ machine.is_type (symbol_view self.entry) }
    {
        matches!(self, Symbol::Word(_) | Symbol::Key(Keyword::Struct))
    }

    /// Whether it is `}`.
    pub fn is_end(self) -> bool
        ensures { result ≡ machine.is_end (symbol_view self.entry) }
    {
        matches!(self, Symbol::End)
    }
}
