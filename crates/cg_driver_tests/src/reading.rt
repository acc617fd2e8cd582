// C texts that are cut: none is a program.
use cg_base::Place;
use cg_cread::{CFault, read_c};
use std::alloc::Global;
use std::process::Abort;
use std::test::Fail;

/// The include lines.
const INCLUDES: &str = "#include <stdint.h>\n#include \"cogent.h\"";

/// The place of a text's fault, where it has one.
fn fault_of(rt: &impl Abort, alloc: Global, text: &[u8]) -> Option<Place> {
    match read_c(alloc, text) {
        Ok(_) => None,
        Err(CFault::Text(place)) => Some(place),
        Err(CFault::Memory) => panic!(rt; "no memory"),
    }
}

/// A function, of which no cut is one.
const FUNCTION: &str =
    "uint32_t f(uint32_t a) {\n    uint32_t x0; /* a sum */\n    x0 = (uint32_t)((uint32_t)a + (uint32_t)1ull);\n    x0 = g(x0, 7ull);\n    return x0;\n}";

#[test]
fn a_text_that_is_cut_is_no_program(rt: HostRuntime) -> Result<(), Fail> {
    let alloc = rt.alloc();
    let text = format!(in alloc; "{INCLUDES}\n\n{FUNCTION}")?;
    for len in 0..=text.len() {
        let (cut, _) = text.as_bytes().split_at(len);
        let end = Place { line: 1, column: 1 }.behind(cut);
        // No function is a program, and so is the whole one.
        let whole = INCLUDES.len() <= len && len <= INCLUDES.len() + 2 || len == text.len();
        match fault_of(&rt, alloc, cut) {
            None => assert!(rt; whole, "at {len}"),
            Some(place) => {
                assert!(rt;
                    !whole && (place.line, place.column) <= (end.line, end.column),
                    "at {len}"
                );
            }
        }
    }
    Ok(())
}
