// Going over the mentions of a cell, or of the argument.
ghost use Rattle.std.specs.Prelude.{◌≡◌, ℕ, List};
ghost use Rattle.cg_heaptext_index.specs.Addresses.{IsMapOf};
ghost use Rattle.cg_heaptext_mentions.specs.Judged.{absent_after, out_after};
ghost use Rattle.cg_heaptext_mentions.specs.Scans.{GivesNumber, NotesAt, Scans};

use crate::found::{Mentions, note};
use crate::step::{Step, step_of};
use cg_base::Place;
use cg_heaptext_entries::Numeral;
use cg_heaptext_index::Addresses;
use cg_heaptext_lexer::{Lexer, TokenKind};

// The number that stands next, if one does.
fn number_behind<'a>(lexer: &Lexer<'a>) -> Option<Numeral<'a>>
    ensures { GivesNumber lexer.now result }
{
    let token = lexer.copy().next();
    match token.kind {
        TokenKind::Number => Some(Numeral {
            place: token.place,
            digits: token.text,
        }),
        _ => None,
    }
}

// What is found with a mention more, whose sign stands at this place, and behind which the number stands.
fn note_at(found: Mentions, addresses: &Addresses, place: Place, behind: &Lexer) -> Mentions
    ensures absent { (ns : List ℕ) → IsMapOf addresses.now ns → NotesAt (absent_after ns) place behind.now found.absent result.absent }
    ensures out { NotesAt out_after place behind.now found.out result.out }
{
    match number_behind(behind) {
        Some(address) => note(found, addresses, place, &address),
        None => found,
    }
}

/// What is found with the mentions from here on, up to the bracket that closes what was opened before, or to the end.
pub(crate) fn scan(before: Mentions, addresses: &Addresses, from: &Lexer) -> Mentions
    ensures absent { (ns : List ℕ) → IsMapOf addresses.now ns → Scans (absent_after ns) from.now before.absent result.absent }
    ensures out { Scans out_after from.now before.out result.out }
{
    let mut found = before;
    let mut lexer = from.copy();
    let most = lexer.left();
    let mut depth: usize = 0;
    loop {
        let token = lexer.next();
        match step_of(&token) {
            Step::At => found = note_at(found, addresses, token.place, &lexer),
            Step::Opens => depth += 1,
            Step::Closes if depth == 0 => return found,
            Step::Closes => depth -= 1,
            Step::Stays => {}
            Step::Over => return found,
        }
    }
}
