//! Stage: command. The program `cogent` over real files and the real output.
//! Role: public.
//! Promises: `main`; its adapters keep the clauses of the traits of the outside, and their loops end.
//! May cite: anything of its stage and of those below; no crate above.
#![tactic(auto)]

mod real;

use cg_driver::{Status, cogent};
use real::{RealFiles, RealOutput};
use std::io::ErrorKind;
use std::process::ExitCode;
use std::rt::Env;
use std::{env, io};

/// The words after the program's name.
fn words_of<R: Env + AllocGlobal>(rt: &R) -> io::Result<Vec<String>> {
    Ok(env::args(rt)?.skip(1).collect(rt.alloc())?)
}

fn main(rt: HostRuntime) -> ExitCode {
    let alloc = rt.alloc();
    let words = match words_of(&rt) {
        Ok(words) => words,
        Err(error) if error.kind() == ErrorKind::OutOfMemory => {
            return ExitCode::from(Status::Memory.code());
        }
        // A word that is no UTF-8 is out of order, as an empty list is.
        Err(_) => Vec::new(alloc),
    };
    let mut files = RealFiles::new(alloc, &rt);
    let mut out = RealOutput::new(&rt);
    let status = cogent(alloc, &words, &mut files, &mut out);
    ExitCode::from(status.code())
}
