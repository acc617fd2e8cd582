// The texts that are made of a number.
#![tactic(auto)]

use cg_gen::{entry_name, generate, heap_text};
use std::alloc::Global;
use std::test::Fail;

/// The source of two functions, with its heap and its entry.
#[test]
fn two_functions(rt: HostRuntime) -> Result<(), Fail> {
    let alloc = rt.alloc();
    let source = generate(alloc, 2)?;
    let lines = [
        "type Cell = {val : U32, tag : U8}\n",
        "f1 : Cell -> Cell\n",
        "f1 c = let c' {val = v} = c in c' {val = v * 3 + 1}\n",
        "f2 : Cell -> Cell\n",
        "f2 c = let c' {val = v} = f1 c in c' {val = v * 3 + 2}\n",
    ];
    let mut wanted = Vec::new(alloc);
    for line in lines {
        wanted.extend_from_slice(line.as_bytes())?;
    }
    assert_eq!(rt; source.as_slice(), wanted.as_slice());
    assert_eq!(rt;
        heap_text(),
        b"@1 = {val = 0, tag = 0}\narg = @1\n".as_slice()
    );
    assert_eq!(rt; entry_name(alloc, 2)?.as_bytes(), b"f2".as_slice());
    Ok(())
}
