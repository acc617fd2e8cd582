// Where the entries of a heap file stand.
use cg_heaptext_entries::{EntryAt, read_entries};
use std::test::Fail;

const FILE: &str = "@05 = {x = #{y = (1)}}
@ 6 = [1, 2]
@7 = <1>
arg = @5
";

/// Whether the sign of an entry stands on this line, with this address behind it, and a cell that begins so.
fn stands(entry: &EntryAt, line: u32, address: &[u8], cell: &[u8]) -> bool {
    let mut lexer = entry.cell.copy();
    entry.place.line == line && entry.address.digits == address && lexer.next().text == cell
}

#[test]
fn entries_are_found(rt: HostRuntime) -> Result<(), Fail> {
    match read_entries(rt.alloc(), FILE.as_bytes()) {
        Ok(index) => match index.entries.as_slice() {
            [record, array, answers] => {
                assert!(rt; stands(record, 1, b"05", b"{"));
                assert!(rt; stands(array, 2, b"6", b"["));
                assert!(rt; stands(answers, 3, b"7", b"<"));
                Ok(())
            }
            _ => panic!(rt; "other entries"),
        },
        Err(_) => panic!(rt; "no heap file"),
    }
}
