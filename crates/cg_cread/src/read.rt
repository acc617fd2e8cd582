// The loop over the tokens of a C text.
ghost use Rattle.std.specs.Prelude.{◌≡◌};
ghost use Rattle.cg_cread.specs.Answers.{Answers};

use crate::CFault;
use crate::file::Phase;
use cg_base::Place;
use cg_cread_lexer::{Lexer, TokenKind};
use cg_ctree::CProgram;
use std::alloc::Global;
use std::mem::drop;

// What was read is let go: nothing goes on with it at this place.
fn unexpected(phase: Phase, place: Place) -> Result<CProgram, CFault>
    ensures { result ≡ Err (CFault.Text place) }
{
    drop(phase);
    Err(CFault::Text(place))
}

/// Reads a C text (docs/LANGUAGE.md, "The C text"): the program that its bytes spell; or the place of the first token that no
/// program of the subset goes on with, or of the end where none ends; or `Memory` where memory is wanting. It takes time in
/// proportion to the bytes.
pub fn read_c(alloc: Global, bytes: &[u8]) -> Result<CProgram, CFault>
    ensures { Answers bytes.now result }
{
    let mut lexer = Lexer::new(bytes);
    let mut phase = Phase::Start;
    loop {
        let token = lexer.next();
        match token.kind {
            TokenKind::Unknown => return unexpected(phase, token.place),
            TokenKind::End => return phase.conclude(alloc, token.place),
            _ => phase = phase.step(alloc, &token)?,
        }
        if !phase.is_open() {
            return unexpected(phase, token.place);
        }
    }
}
