// Runs of what `build` writes of sources (docs/CASES.md, "Calls").
use crate::crun::{Steps, run_program};
use cg_base::Name;
use cg_cread::read_c;
use cg_driver::{Status, cogent};
use cg_outside::{MemoryFiles, MemorySink};
use std::alloc::{AllocError, Global};

// The words of `build`, with names of its own.
fn build_words(alloc: Global) -> Result<Vec<String>, AllocError> {
    let mut words = Vec::new(alloc);
    for word in ["build", "a.cg", "a.c", "a.cert"] {
        words.push(String::from_str(alloc, word)?)?;
    }
    Ok(words)
}

// Files of which one is the source.
fn source_file(alloc: Global, source: &[u8]) -> Result<MemoryFiles, AllocError> {
    let Ok(name) = Name::new(alloc, b"a.cg") else {
        return Err(AllocError);
    };
    let mut files = Vec::new(alloc);
    files.push((name, source.to_vec(alloc)?))?;
    Ok(MemoryFiles::new(alloc, files, Vec::new(alloc)))
}

// What a run of a C text answers, without its steps.
fn text_ran(alloc: Global, words: &[String], text: &[u8]) -> Result<String, AllocError> {
    match read_c(alloc, text) {
        Ok(program) => run_program(alloc, words, &program, Steps::Open),
        Err(_) => String::from_str(alloc, "no program\n"),
    }
}

/// What a run of the C text answers that `build` writes of a source, without its steps; of a source that it refuses, the status.
pub fn built_text(alloc: Global, words: &[String], source: &[u8]) -> Result<String, AllocError> {
    let build = build_words(alloc)?;
    let mut files = source_file(alloc, source)?;
    let mut out = MemorySink::new(alloc, Vec::new(alloc));
    let status = cogent(alloc, build.as_slice(), &mut files, &mut out);
    match (status, files.contents("a.c")) {
        (Status::Done, Some(text)) => text_ran(alloc, words, text),
        _ => {
            let code = status.code();
            Ok(format!(in alloc; "refused {code}\n")?)
        }
    }
}
