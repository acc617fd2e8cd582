// The symbols of tokens.
ghost use Rattle.std.specs.Prelude.{◌≡◌};
ghost use Rattle.cg_parser_symbols.specs.Symbols.{symbol_of, word_symbol, sign_symbol, mark_symbol, operator_symbol};
ghost use Rattle.cg_parser_symbols.specs.Views.{symbol_view};

use cg_lexer::{Token, TokenKind};

/// A token by its use. A bar knows whether it is the first token on its line; `<` and `>` whether they are joined to the token
/// before them. `Other` is the end.
#[derive(Clone, Copy)]
pub enum Symbol<'a> {
    Lower(&'a [u8]),
    Upper(&'a [u8]),
    Number(Option<u64>),
    Wildcard,
    TypeWord,
    Let,
    In,
    Take,
    All,
    And,
    If,
    Then,
    Else,
    Not,
    Complement,
    Upcast,
    True,
    False,
    Opening,
    Closing,
    Brace,
    ClosingBrace,
    Unboxed,
    Bracket,
    ClosingBracket,
    Less(bool),
    Greater(bool),
    Colon,
    HasKinds,
    Equals,
    Arrow,
    Bang,
    Bar(bool),
    Comma,
    Dot,
    Dots,
    Plus,
    Minus,
    Star,
    Slash,
    Percent,
    LessEqual,
    GreaterEqual,
    Equal,
    NotEqual,
    Both,
    Either,
    BitAnd,
    BitOr,
    BitXor,
    Other,
}

/// The symbol of a token: docs/LANGUAGE.md, "Tokens". It takes no memory.
pub fn symbol_at<'a>(token: &Token<'a>) -> Symbol<'a>
    ensures { symbol_view result ≡ symbol_of token.now.kind token.now.text.now token.now.first token.now.joined }
{
    match token.kind {
        TokenKind::Lower => Symbol::Lower(token.text),
        TokenKind::Upper => Symbol::Upper(token.text),
        TokenKind::Number(value) => Symbol::Number(value),
        TokenKind::Word => word(token.text),
        TokenKind::Sign => sign(token.text, token.first, token.joined),
        TokenKind::End => Symbol::Other,
    }
}

fn word<'a>(text: &'a [u8]) -> Symbol<'a>
    ensures { symbol_view result ≡ word_symbol text.now }
{
    if text == b"type".as_slice() {
        Symbol::TypeWord
    } else if text == b"let".as_slice() {
        Symbol::Let
    } else if text == b"in".as_slice() {
        Symbol::In
    } else if text == b"take".as_slice() {
        Symbol::Take
    } else if text == b"all".as_slice() {
        Symbol::All
    } else if text == b"and".as_slice() {
        Symbol::And
    } else if text == b"if".as_slice() {
        Symbol::If
    } else if text == b"then".as_slice() {
        Symbol::Then
    } else if text == b"else".as_slice() {
        Symbol::Else
    } else if text == b"not".as_slice() {
        Symbol::Not
    } else if text == b"complement".as_slice() {
        Symbol::Complement
    } else if text == b"upcast".as_slice() {
        Symbol::Upcast
    } else if text == b"True".as_slice() {
        Symbol::True
    } else if text == b"False".as_slice() {
        Symbol::False
    } else {
        Symbol::Other
    }
}

fn sign<'a>(text: &'a [u8], first: bool, joined: bool) -> Symbol<'a>
    ensures { symbol_view result ≡ sign_symbol text.now first joined }
{
    match text {
        b"(" => Symbol::Opening,
        b")" => Symbol::Closing,
        b"{" => Symbol::Brace,
        b"}" => Symbol::ClosingBrace,
        b"#{" => Symbol::Unboxed,
        b"[" => Symbol::Bracket,
        b"]" => Symbol::ClosingBracket,
        b"<" => Symbol::Less(joined),
        b">" => Symbol::Greater(joined),
        _ => mark(text, first),
    }
}

fn mark<'a>(text: &'a [u8], first: bool) -> Symbol<'a>
    ensures { symbol_view result ≡ mark_symbol text.now first }
{
    match text {
        b":" => Symbol::Colon,
        b":<" => Symbol::HasKinds,
        b"=" => Symbol::Equals,
        b"->" => Symbol::Arrow,
        b"!" => Symbol::Bang,
        b"|" => Symbol::Bar(first),
        b"," => Symbol::Comma,
        b"." => Symbol::Dot,
        b".." => Symbol::Dots,
        b"_" => Symbol::Wildcard,
        _ => operator(text),
    }
}

fn operator<'a>(text: &'a [u8]) -> Symbol<'a>
    ensures { symbol_view result ≡ operator_symbol text.now }
{
    match text {
        b"+" => Symbol::Plus,
        b"-" => Symbol::Minus,
        b"*" => Symbol::Star,
        b"/" => Symbol::Slash,
        b"%" => Symbol::Percent,
        b"<=" => Symbol::LessEqual,
        b">=" => Symbol::GreaterEqual,
        b"==" => Symbol::Equal,
        b"/=" => Symbol::NotEqual,
        b"&&" => Symbol::Both,
        b"||" => Symbol::Either,
        b".&." => Symbol::BitAnd,
        b".|." => Symbol::BitOr,
        b".^." => Symbol::BitXor,
        _ => Symbol::Other,
    }
}
