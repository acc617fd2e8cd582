// What the grammar sees of a token.
ghost use Rattle.std.specs.Prelude.{◌≡◌};
ghost use Rattle.std.specs.List.{list_any};
ghost use Rattle.std.specs.Str.{bytes_eq};
ghost use Rattle.cg_heaptext_lexer.specs.Next.{lexeme};
ghost use Rattle.cg_heaptext_parser.specs.Symbols as pure;
ghost use Rattle.cg_heaptext_parser.specs.Views.{symbol_view};
ghost use Rattle.cg_lexer.specs.Tokens.{is_word as is_word_text};

use cg_heaptext_lexer::{Token, TokenKind};

/// The words of the language, which name no field.
const WORDS: [&[u8]; 14] = [
    b"type",
    b"let",
    b"in",
    b"and",
    b"if",
    b"then",
    b"else",
    b"take",
    b"all",
    b"not",
    b"complement",
    b"upcast",
    b"True",
    b"False",
];

/// A token by its use. `Named` is a name that a field may have; `Foreign` is a word of the language, or no sign.
#[derive(Clone, Copy)]
pub enum Symbol<'a> {
    Digits(&'a [u8]),
    Named(&'a [u8]),
    Wild,
    Truth(bool),
    Constructor(&'a [u8]),
    At,
    Equals,
    Comma,
    OpenRecord,
    OpenBrace,
    CloseBrace,
    OpenBracket,
    CloseBracket,
    OpenAngle,
    CloseAngle,
    OpenParen,
    CloseParen,
    Foreign,
}

/// The symbol of a token. What is no token, `Unknown` and `End`, is taken for a sign with its text, as the lexer's words say.
pub(crate) fn symbol_at<'a>(token: &Token<'a>) -> Symbol<'a>
    ensures { symbol_view result ≡ pure.symbol_of (lexeme token.now).token }
{
    match token.kind {
        TokenKind::Number => Symbol::Digits(token.text),
        TokenKind::Lower => lower(token.text),
        TokenKind::Upper => upper(token.text),
        TokenKind::Sign | TokenKind::Unknown | TokenKind::End => sign(token.text),
    }
}

fn is_among(text: &[u8], texts: &[&[u8]]) -> bool
    ensures { result ≡ list_any (λ t. bytes_eq text.now t.now) texts.now }
{
    texts.iter().any(|other| text == *other)
}

fn is_word(text: &[u8]) -> bool
    ensures { result ≡ is_word_text text.now }
{
    is_among(text, &WORDS)
}

// The symbol of what begins with a small letter or the line below.
fn lower<'a>(text: &'a [u8]) -> Symbol<'a>
    ensures { symbol_view result ≡ pure.lower_symbol text.now }
{
    if text == b"_".as_slice() {
        Symbol::Wild
    } else if is_word(text) {
        Symbol::Foreign
    } else {
        Symbol::Named(text)
    }
}

// The symbol of what begins with a large letter.
fn upper<'a>(text: &'a [u8]) -> Symbol<'a>
    ensures { symbol_view result ≡ pure.upper_symbol text.now }
{
    if text == b"True".as_slice() {
        Symbol::Truth(true)
    } else if text == b"False".as_slice() {
        Symbol::Truth(false)
    } else {
        Symbol::Constructor(text)
    }
}

// The symbol of a sign.
fn sign<'a>(text: &'a [u8]) -> Symbol<'a>
    ensures { symbol_view result ≡ pure.sign_symbol text.now }
{
    if text == b"@".as_slice() {
        Symbol::At
    } else if text == b"=".as_slice() {
        Symbol::Equals
    } else if text == b",".as_slice() {
        Symbol::Comma
    } else if text == b"#{".as_slice() {
        Symbol::OpenRecord
    } else {
        bracket(text)
    }
}

// The symbol of a bracket.
fn bracket<'a>(text: &'a [u8]) -> Symbol<'a>
    ensures { symbol_view result ≡ pure.bracket_symbol text.now }
{
    if text == b"{".as_slice() {
        Symbol::OpenBrace
    } else if text == b"}".as_slice() {
        Symbol::CloseBrace
    } else if text == b"[".as_slice() {
        Symbol::OpenBracket
    } else if text == b"]".as_slice() {
        Symbol::CloseBracket
    } else {
        round(text)
    }
}

// The symbol of a round bracket or an angle.
fn round<'a>(text: &'a [u8]) -> Symbol<'a>
    ensures { symbol_view result ≡ pure.round_symbol text.now }
{
    if text == b"<".as_slice() {
        Symbol::OpenAngle
    } else if text == b">".as_slice() {
        Symbol::CloseAngle
    } else if text == b"(".as_slice() {
        Symbol::OpenParen
    } else if text == b")".as_slice() {
        Symbol::CloseParen
    } else {
        Symbol::Foreign
    }
}
