// The loop over the tokens of a heap file.
ghost use Rattle.std.specs.Prelude.{◌≡◌};
ghost use Rattle.cg_heaptext_parser.specs.Answers.{Answers, Concludes};
ghost use Rattle.cg_heaptext_parser.specs.Outline as outline;
ghost use Rattle.cg_heaptext_parser.specs.Views.{outline_of};

use crate::fault::TextFault;
use crate::phase::Phase;
use crate::reading::{Reading, outside};
use crate::symbol::symbol_at;
use cg_base::Place;
use cg_heaptext_lexer::{Lexer, TokenKind};
use std::alloc::Global;

// Whether a heap file ends at the end, which has this place.
fn conclude(reading: Reading, place: Place) -> Result<(), TextFault>
    ensures { Concludes (outline.ends (outline_of reading)) place result }
{
    if reading.ends() {
        Ok(())
    } else {
        Err(TextFault::Text(place))
    }
}

/// Reads the text of a heap file (docs/LANGUAGE.md, "Heap files"): `Ok` exactly where its bytes spell one, and else the place of the first
/// token that no heap file goes on with, or of the end where none ends; or `Memory` where memory is wanting. It takes time in proportion to
/// the bytes, and memory in proportion to what is open at once.
pub fn read_text(alloc: Global, bytes: &[u8]) -> Result<(), TextFault>
    ensures { Answers bytes.now result }
{
    let mut lexer = Lexer::new(bytes);
    let mut reading = outside(alloc, Phase::Between);
    loop {
        let token = lexer.next();
        match token.kind {
            TokenKind::Unknown => return Err(TextFault::Text(token.place)),
            TokenKind::End => return conclude(reading, token.place),
            _ => reading = reading.step(alloc, symbol_at(&token))?,
        }
        if !reading.phase.is_open() {
            return Err(TextFault::Text(token.place));
        }
    }
}
