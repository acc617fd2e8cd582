//! Stage: tests. The cases: what the program answers in thousands of calls, as files in `data/`.
//! Role: tests.
//! Promises: `main` goes through each file that the words name, prints a line for each difference, and last how many there are.
//! May cite: all crates; no crate but tests cites it.
//! docs/CASES.md says how a case is written.
#![tactic(auto)]

mod accepted;
mod answer;
mod built;
mod call;
mod case;
mod cells;
mod crun;
mod ctext;
mod evaluation;
mod instances;
mod kernel;
mod limit;
mod reader;
mod store;
mod text;
mod value;

use crate::reader::run_all;
use std::process::ExitCode;
use std::rt::Env;
use std::{env, fs};

/// How many cases there were, and how many were answered otherwise.
#[derive(Clone, Copy)]
pub struct Counts {
    pub cases: u64,
    pub differences: u64,
}

fn main(rt: HostRuntime) -> anyhow::Result<ExitCode> {
    let alloc = rt.alloc();
    let mut counts = Counts {
        cases: 0,
        differences: 0,
    };
    let mut told = String::new(alloc);
    for word in env::args(&rt)?.skip(1) {
        let bytes = fs::read(&rt, word.as_str())?;
        run_all(alloc, word.as_str(), &bytes, &mut counts, &mut told)?;
    }
    let cases = counts.cases;
    let differences = counts.differences;
    print!(rt; "{told}")?;
    println!(rt; "{cases} cases, {differences} differences")?;
    Ok(if differences == 0 {
        ExitCode::SUCCESS
    } else {
        ExitCode::FAILURE
    })
}
