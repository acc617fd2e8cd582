// C texts: what reading one answers.
use cg_cread::{CFault, read_c};
use std::alloc::{AllocError, Global};

/// What reading a C text answers: `ok`, or the place of its fault.
pub fn read_c_text(alloc: Global, text: &[u8]) -> Result<String, AllocError> {
    match read_c(alloc, text) {
        Ok(_) => String::from_str(alloc, "ok\n"),
        Err(CFault::Text(place)) => {
            let line = place.line;
            let column = place.column;
            Ok(format!(in alloc; "{line}:{column}\n")?)
        }
        Err(CFault::Memory) => String::from_str(alloc, "no memory\n"),
    }
}
