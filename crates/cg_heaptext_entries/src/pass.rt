// The pass over the tokens of a heap file that finds its entries.
ghost use Rattle.std.specs.Prelude.{◌≡◌, ◌≤◌, length};
ghost use Rattle.cg_heaptext_entries.specs.Index.{Answers};
ghost use Rattle.cg_heaptext_entries.specs.Passes.{Finds, IsNoLonger, PassesEntry, PassesNumeral, is_at as is_at_sign};

use crate::entry::{EntryAt, Index, Numeral};
use crate::skip::skip_cell;
use cg_base::{Items, Place};
use cg_heaptext_lexer::{Lexer, Token, TokenKind};
use cg_heaptext_parser::{TextFault, read_text};
use std::alloc::Global;

fn is_at(token: &Token) -> bool
    ensures { result ≡ is_at_sign token.now.kind token.now.text.now }
{
    match token.kind {
        TokenKind::Sign => token.text == b"@".as_slice(),
        _ => false,
    }
}

fn numeral<'a>(lexer: &mut Lexer<'a>) -> Numeral<'a>
    ensures passes { PassesNumeral lexer.old result lexer.new }
    ensures shorter { IsNoLonger lexer.old lexer.new }
{
    let token = lexer.next();
    Numeral {
        place: token.place,
        digits: token.text,
    }
}

// The entry whose sign stands at this place, from its address on. No more than `most` bytes are left.
fn entry<'a>(lexer: &mut Lexer<'a>, place: Place, most: usize) -> EntryAt<'a>
    requires { length lexer.old.rest ≤ most }
    ensures passes { PassesEntry lexer.old place result lexer.new }
    ensures shorter { IsNoLonger lexer.old lexer.new }
{
    let address = numeral(lexer);
    lexer.next();
    let cell = lexer.copy();
    skip_cell(lexer, most);
    EntryAt {
        place,
        address,
        cell,
    }
}

// Finds the entries and the argument of a heap file.
fn find<'a>(alloc: Global, bytes: &'a [u8]) -> Result<Index<'a>, TextFault>
    ensures { Finds bytes.now result }
{
    let mut lexer = Lexer::new(bytes);
    let mut entries = Items::new(alloc);
    loop {
        let token = lexer.next();
        if !is_at(&token) {
            break;
        }
        entries.push(entry(&mut lexer, token.place, bytes.len()))?;
    }
    lexer.next();
    Ok(Index {
        entries,
        argument: lexer,
    })
}

/// Where the entries of a heap file and its argument stand (docs/LANGUAGE.md, "Heap files"): `Ok` exactly where the bytes spell a heap file,
/// with its entries in order, and a lexer that begins at its argument; and else the place of the first token that no heap file goes on with,
/// or of the end where none ends; or `Memory` where memory is wanting. It takes time in proportion to the bytes, and memory in proportion to
/// the entries and to what is open at once.
pub fn read_entries<'a>(alloc: Global, bytes: &'a [u8]) -> Result<Index<'a>, TextFault>
    ensures { Answers bytes.now result }
{
    read_text(alloc, bytes)?;
    find(alloc, bytes)
}
