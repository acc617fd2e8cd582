// Passing over a value that stands among others.
ghost use Rattle.std.specs.Prelude.{◌≡◌, List};
ghost use Rattle.cg_heaptext_def.specs.Tokens.{Lexeme};
ghost use Rattle.cg_heaptext_entries.specs.Index.{Before};
ghost use Rattle.cg_heaptext_values.specs.Turns.{passed, inside};

use crate::turn::{Turn, turn_of};
use cg_heaptext_lexer::Lexer;

// Passes a value and the token behind it; whether this is a comma, so that another value stands behind it.
pub(crate) fn pass_value(lexer: &mut Lexer) -> bool
    ensures { (ts : List Lexeme) → Before lexer.old ts → (result ≡ (passed (inside 0) ts).0) × Before lexer.new (passed (inside 0) ts).1 }
{
    let most = lexer.left();
    let mut depth: usize = 0;
    loop {
        let token = lexer.next();
        match turn_of(&token) {
            Turn::Opens => depth += 1,
            Turn::Closes if depth == 0 => return false,
            Turn::Closes => depth -= 1,
            Turn::Parts if depth == 0 => return true,
            Turn::Parts => {}
            Turn::Stays => {}
            Turn::Over => return false,
        }
    }
}
