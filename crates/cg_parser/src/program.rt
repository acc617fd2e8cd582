// The loop over the tokens of a source.
ghost use Rattle.std.specs.Prelude.{◌≡◌, OnOk};
ghost use Rattle.cg_lexer.specs.Tokens.{lexeme};
ghost use Rattle.cg_parser_symbols.specs.Symbols.{seen};
ghost use Rattle.cg_parser.specs.Answers.{Answers, Concludes};
ghost use Rattle.cg_parser_def.specs.Held.{bounded_items};
ghost use Rattle.cg_parser.specs.Views.{reading_state, is_wrong};

use crate::fault::ParseFault;
use crate::item::{finish, step};
use crate::readers::Parts;
use cg_base::{Items, Memory, Place};
use cg_lexer::{Lexer, Token, TokenKind};
use cg_parser_items::phase::Phase;
use cg_surface::Program;
use std::alloc::Global;

/// A source that is read: the items before, where among items its reader stands, and the readers of the parts.
struct Reading {
    done: Option<Program>,
    phase: Phase,
    parts: Parts,
}

impl Drop for Reading {
    fn drop(self) {
        let Reading { done, phase, parts } = self;
        drop(done);
        drop(phase);
        drop(parts);
    }
}

impl Reading {
    /// Before the first token.
    fn new(alloc: Global) -> Reading
        ensures { reading_state result ≡ bounded_items.begin }
    {
        let items = Items::new(alloc);
        Reading {
            done: Some(Program { items }),
            phase: Phase::Between,
            parts: Parts::new(alloc),
        }
    }

    /// One token more.
    fn step<'a>(&mut self, alloc: Global, token: &Token<'a>) -> Result<(), Memory>
        ensures { OnOk result (reading_state self.new ≡ bounded_items.step (reading_state self.old) (seen (lexeme token.now))) }
    {
        let phase = std::mem::replace(&mut self.phase, Phase::Failed);
        let next = step(alloc, &mut self.done, &mut self.parts, phase, token)?;
        drop(std::mem::replace(&mut self.phase, next));
        Ok(())
    }

    /// Whether a program may still come of it.
    fn is_open(&self) -> bool
        ensures { result ≡ bounded_items.is_open (reading_state self.now) }
    {
        match self.phase {
            Phase::InSynonym(_, _) | Phase::InSignature(_, _) => self.parts.types.is_open(),
            Phase::InParam(_) => self.parts.patterns.is_open(),
            Phase::InBody(_, _) => self.parts.exprs.is_open(),
            Phase::Failed => false,
            _ => true,
        }
    }

    /// Whether it stopped at a bar that is first on its line and stands at a wrong column.
    fn is_wrong_bar(&self) -> bool
        ensures { result ≡ is_wrong (reading_state self.now) }
    {
        match self.phase {
            Phase::InBody(_, _) => self.parts.exprs.is_wrong_bar(),
            _ => false,
        }
    }

    /// Behind the last token, at this place.
    fn conclude(self, alloc: Global, place: Place) -> Result<Program, ParseFault>
        ensures { Concludes (bounded_items.finish (reading_state self)) place result }
    {
        let Reading { done, phase, parts } = self;
        let mut done = done;
        let mut parts = parts;
        if !finish(alloc, &mut done, &mut parts, phase)? {
            return Err(ParseFault::S3(place));
        }
        done.ok_or(ParseFault::Nesting)
    }
}

/// Reads a source: the program that its bytes spell, or the first place where they spell none. It takes time in
/// proportion to their number, and no more of the machine's stack where they are deeply nested.
/// docs/LANGUAGE.md, "Grammar", says what is spelled, and "Limits" how deep a program may be.
pub fn parse(alloc: Global, bytes: &[u8]) -> Result<Program, ParseFault>
    ensures { Answers bytes.now result }
{
    let mut lexer = Lexer::new(bytes);
    let mut reading = Reading::new(alloc);
    loop {
        let token = lexer.next()?;
        if let TokenKind::End = token.kind {
            return reading.conclude(alloc, token.place);
        }
        reading.step(alloc, &token)?;
        if reading.is_open() {
            continue;
        }
        if reading.is_wrong_bar() {
            return Err(ParseFault::S4(token.place));
        }
        return Err(ParseFault::S3(token.place));
    }
}
