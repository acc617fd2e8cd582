// Which texts are heap files, and where the others are refused.
use cg_heaptext_parser::{TextFault, read_text};
use std::alloc::Global;
use std::process::Abort;
use std::test::Fail;

/// All cells and all values, with white space where it may stand.
const WHOLE: &str = "@05 = {left = A (B 1), it' = @ 6, gone = _}
@6 = [0, 007, 18446744073709551616]
@ 7 = <1, 0>
@8 = {x = #{p1 = True, p2 = ( )}}@9=[]@9=<>
\targ\r
= (@5, C #{a = D}, (A ((2)), _), False)
";

/// Texts that are no heap files, with the line and the column of the first token that none goes on with, or of the end.
const REFUSED: [(&str, u32, u32); 22] = [
    ("", 1, 1),
    ("@1 = <1>\n@2 = [1]\n", 3, 1),
    ("arg = {", 1, 7),
    ("arg = A (B 1", 1, 13),
    ("arg = A B 1", 1, 11),
    ("arg = A\n  B\n  1", 3, 3),
    ("arg = True 1", 1, 12),
    ("@1 = <00>\narg = 1", 1, 7),
    ("@1 = <2>\narg = 1", 1, 7),
    ("@1 = <1,>\narg = 1", 1, 9),
    ("@1 = [1,]\narg = 1", 1, 9),
    ("@1 = {}\narg = 1", 1, 7),
    ("@1 = {_ = 1}\narg = 1", 1, 7),
    ("@1 = {let = 1}\narg = 1", 1, 7),
    ("@1 = #{a = 1}\narg = 1", 1, 6),
    ("arg = (1, 2}", 1, 12),
    ("arg = (1,)", 1, 10),
    ("arg = 0x1", 1, 8),
    ("arg =\n # {a = 1}", 2, 2),
    ("arg = #", 1, 7),
    ("arg = 1\n@1 = [1]", 2, 1),
    ("argument = 1", 1, 1),
];

/// The line and the column at which a text is refused; None where it is a heap file.
fn refused(rt: &impl Abort, alloc: Global, text: &[u8]) -> Option<(u32, u32)> {
    match read_text(alloc, text) {
        Ok(()) => None,
        Err(TextFault::Text(place)) => Some((place.line, place.column)),
        Err(TextFault::Memory) => panic!(rt; "no memory"),
    }
}

#[test]
fn all_forms_are_read(rt: HostRuntime) -> Result<(), Fail> {
    assert!(rt; refused(&rt, rt.alloc(), WHOLE.as_bytes()).is_none());
    Ok(())
}

#[test]
fn others_are_refused_at_their_places(rt: HostRuntime) -> Result<(), Fail> {
    for (text, line, column) in REFUSED.as_slice() {
        let place = refused(&rt, rt.alloc(), text.as_bytes());
        assert_eq!(rt; place, Some((*line, *column)));
    }
    Ok(())
}

/// The same byte, so many times more.
fn push_all(text: &mut Vec<u8>, byte: u8, count: u32) -> Result<(), Fail> {
    for _ in 0..count {
        text.push(byte)?;
    }
    Ok(())
}

#[test]
fn nesting_has_no_limit(rt: HostRuntime) -> Result<(), Fail> {
    let mut text = Vec::new(rt.alloc());
    text.extend_from_slice(b"arg = ")?;
    push_all(&mut text, b'(', 100_000)?;
    text.push(b'1')?;
    push_all(&mut text, b')', 100_000)?;
    assert!(rt; refused(&rt, rt.alloc(), text.as_slice()).is_none());
    Ok(())
}
