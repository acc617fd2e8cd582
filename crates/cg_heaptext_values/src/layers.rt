// The parentheses round a value.
ghost use Rattle.std.specs.Prelude.{◌≡◌, ◌+◌, ◌-◌, drop, List};
ghost use Rattle.cg_heaptext_def.specs.Tokens.{Lexeme};
ghost use Rattle.cg_heaptext_entries.specs.Index.{Before};
ghost use Rattle.cg_heaptext_values.specs.Turns.{layers_of, lead as lead_of, seeking, sought};

use crate::turn::{Leading, Turn, leading_of, turn_of};
use cg_heaptext_lexer::Lexer;

// How many parentheses open in front, without the one that `)` stands behind.
fn lead(lexer: &Lexer) -> usize
    ensures { (ts : List Lexeme) → Before lexer.now ts → result ≡ lead_of ts - 1 }
{
    let mut lexer = lexer.copy();
    let most = lexer.left();
    let mut count: usize = 0;
    loop {
        match leading_of(&lexer.next()) {
            Leading::Opens => count += 1,
            Leading::Closes => return count.saturating_sub(1),
            Leading::Other => return count,
        }
    }
}

// In how many brackets the outermost comma of a value stands beside its own, or `most`, where that is less.
fn around_comma(lexer: &Lexer, most: usize) -> usize
    ensures { (ts : List Lexeme) → Before lexer.now ts → result ≡ sought (seeking 0 (most + 1)) ts - 1 }
{
    let mut lexer = lexer.copy();
    let left = lexer.left();
    let mut depth: usize = 0;
    let mut least = most;
    loop {
        match turn_of(&lexer.next()) {
            Turn::Opens => depth += 1,
            Turn::Closes if depth <= 1 => return least,
            Turn::Closes => depth -= 1,
            Turn::Parts => least = least.min(depth.saturating_sub(1)),
            Turn::Stays => {}
            Turn::Over => return least,
        }
    }
}

// How many parentheses stand round the value at a lexer.
fn layers(lexer: &Lexer) -> usize
    ensures { (ts : List Lexeme) → Before lexer.now ts → result ≡ layers_of ts }
{
    match lead(lexer) {
        0 => 0,
        lead => around_comma(lexer, lead),
    }
}

// A lexer that stands behind the parentheses that open round a value.
pub(crate) fn behind_layers<'a>(lexer: &Lexer<'a>) -> Lexer<'a>
    ensures { (ts : List Lexeme) → Before lexer.now ts → Before result (drop (layers_of ts) ts) }
{
    let mut inner = lexer.copy();
    let mut left = layers(lexer);
    while left > 0 {
        inner.next();
        left -= 1;
    }
    inner
}
