// Runs of functions of C texts on cells (docs/CASES.md, "Cells").
ghost use Rattle.std.specs.Prelude.{◌≤◌};

use crate::cells::{length_of, push_cell, push_scalar, read_address, read_cell, read_scalar};
use crate::text::TextFault;
use cg_base::{Items, Name, literal};
use cg_cmachine::{Ran, RunFault, run_c};
use cg_cread::read_c;
use cg_ctree::{CProgram, Why};
use cg_heap::{Cell, MapStore, Scalar, Store};
use std::alloc::{AllocError, Global};

/// The greatest address of a cell that a case has.
const LAST: u64 = 4_294_967_295;

/// The greatest budget of a run.
const MOST_STEPS: u64 = 70_368_744_177_664;

// The word for a reason.
fn why_text(why: Why) -> &'static str {
    match why {
        Why::NoFunction => "NoFunction",
        Why::NoBody => "NoBody",
        Why::Unset => "Unset",
        Why::NoCell => "NoCell",
        Why::ByZero => "ByZero",
        Why::ShiftTooFar => "ShiftTooFar",
        Why::NoCase => "NoCase",
        Why::NoReturn => "NoReturn",
        Why::KindsDiffer => "KindsDiffer",
    }
}

// Writes a line of addresses.
fn push_addresses(told: &mut String, name: &str, addresses: &[u64]) -> Result<(), AllocError> {
    told.push_str(name)?;
    for at in addresses {
        write!(told, " @{at}")?;
    }
    told.push('\n')
}

/// Whether an answer says how many steps a run took.
#[derive(Clone, Copy)]
pub enum Steps {
    Told,
    Open,
}

// Writes what a run gave: its steps where they are told, and the lines of its value and of the cells that it made and freed.
fn push_ran(told: &mut String, ran: &Ran, steps: Steps) -> Result<(), AllocError> {
    told.push_str("ok")?;
    if let Steps::Told = steps {
        let steps = ran.steps;
        write!(told, " {steps}")?;
    }
    told.push_str("\nvalue:")?;
    for scalar in ran.value.as_slice() {
        told.push(' ')?;
        push_scalar(told, *scalar)?;
    }
    told.push('\n')?;
    push_addresses(told, "made:", ran.made.as_slice())?;
    push_addresses(told, "freed:", ran.freed.as_slice())
}

// Writes how a run ended.
fn push_end(told: &mut String, end: Result<Ran, RunFault>, steps: Steps) -> Result<(), AllocError> {
    match end {
        Ok(ran) => push_ran(told, &ran, steps),
        Err(RunFault::Stuck(why)) => {
            told.push_str(why_text(why))?;
            told.push('\n')
        }
        Err(RunFault::Budget) => told.push_str("budget\n"),
        Err(RunFault::Memory) => Err(AllocError),
    }
}

// Writes the cells at these addresses and at those above the old top.
fn push_cells(
    told: &mut String,
    store: &MapStore,
    named: &[u64],
    top: u64,
) -> Result<(), AllocError> {
    for at in named {
        push_cell(told, store, *at)?;
    }
    for at in top..store.top() {
        push_cell(told, store, at + 1)?;
    }
    Ok(())
}

// Places a cell, if it may stand there and none does.
fn place(store: &mut MapStore, at: u64, cell: Cell) -> Result<(), TextFault>
    requires { store.old.top ≤ 4294967295 }
    ensures { store.new.top ≤ 4294967295 }
{
    if at == 0 || at > LAST || store.len(at).is_some() || length_of(&cell) > LAST as usize {
        return Err(TextFault::Escape);
    }
    store.place(at, cell)?;
    Ok(())
}

/// What a run begins with, beside its store: the argument's scalars, and the addresses of the cells that are placed.
struct Begin {
    arg: Items<Scalar>,
    named: Vec<u64>,
}

impl Drop for Begin {
    fn drop(self) {
        let Begin { arg, named } = self;
        drop(arg);
        drop(named);
    }
}

// A word: a scalar of the argument, or a cell behind its address and `=`, which is placed.
fn take_word(
    alloc: Global,
    word: &[u8],
    begin: &mut Begin,
    store: &mut MapStore,
) -> Result<(), TextFault>
    requires { store.old.top ≤ 4294967295 }
    ensures { store.new.top ≤ 4294967295 }
{
    match word.iter().position(|byte| *byte == b'=') {
        Some(equals) => {
            let at = read_address(&word[..equals])?;
            let cell = read_cell(alloc, &word[equals + 1..])?;
            place(store, at, cell)?;
            begin.named.push(at)?;
        }
        None => begin.arg.push(read_scalar(word)?)?,
    }
    Ok(())
}

// What words say that a run begins with; its cells are placed.
fn read_begin(alloc: Global, words: &[String], store: &mut MapStore) -> Result<Begin, TextFault>
    requires { store.old.top ≤ 4294967295 }
    ensures { store.new.top ≤ 4294967295 }
{
    let mut begin = Begin {
        arg: Items::new(alloc),
        named: Vec::new(alloc),
    };
    for word in words {
        take_word(alloc, word.as_bytes(), &mut begin, store)?;
    }
    Ok(begin)
}

// How a function runs on what the words say, within a budget, and the cells afterwards.
fn ran_text(
    alloc: Global,
    program: &CProgram,
    function: &Name,
    budget: u64,
    words: &[String],
    steps: Steps,
) -> Result<String, AllocError>
    requires { budget ≤ 70368744177664 }
{
    let mut store = MapStore::new(alloc);
    let begin = match read_begin(alloc, words, &mut store) {
        Ok(begin) => begin,
        Err(TextFault::Escape) => return String::from_str(alloc, "no such call\n"),
        Err(TextFault::Memory) => return Err(AllocError),
    };
    let top = store.top();
    let mut told = String::new(alloc);
    let end = run_c(alloc, program, function, &begin.arg, &mut store, budget);
    push_end(&mut told, end, steps)?;
    push_cells(&mut told, &store, begin.named.as_slice(), top)?;
    Ok(told)
}

/// What a run of a C program answers, by the words FUNCTION BUDGET and then the argument's scalars and the cells: how it ends, and
/// the cells that are there afterwards.
pub fn run_program(
    alloc: Global,
    words: &[String],
    program: &CProgram,
    steps: Steps,
) -> Result<String, AllocError> {
    let [function, budget, rest @ ..] = words else {
        return String::from_str(alloc, "no such call\n");
    };
    let budget = match literal(budget.as_bytes()) {
        Some(budget) if budget <= MOST_STEPS => budget,
        _ => return String::from_str(alloc, "no such call\n"),
    };
    match Name::new(alloc, function.as_bytes()) {
        Ok(function) => ran_text(alloc, program, &function, budget, rest, steps),
        Err(_) => Err(AllocError),
    }
}

/// What a run of a C text answers, with its steps.
pub fn run_text(alloc: Global, words: &[String], text: &[u8]) -> Result<String, AllocError> {
    match read_c(alloc, text) {
        Ok(program) => run_program(alloc, words, &program, Steps::Told),
        Err(_) => String::from_str(alloc, "no program\n"),
    }
}
