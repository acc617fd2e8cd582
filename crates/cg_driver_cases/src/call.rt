// What a case's call answers, as a text.
use crate::built::built_text;
use crate::case::{Called, Case};
use crate::crun::run_text;
use crate::ctext::read_c_text;
use crate::evaluation::eval_text;
use crate::instances::{copies_text, count_text};
use crate::kernel::kernel_text;
use crate::limit::limit_name;
use crate::store::{flat_text, store_text};
use cg_base::{Name, Place};
use cg_driver::cogent;
use cg_driver_words::{Command, read_words};
use cg_outside::{TornFiles, TornSink};
use cg_parser::{ParseFault, parse};
use cg_resolve::{Fault, resolve};
use cg_resolve_declared::Declarations;
use cg_resolve_names::{NamingFault, check_names};
use std::alloc::{AllocError, Global};

/// What a call answers: a text, and the files afterwards, where the call may change any.
pub struct Answer {
    pub text: Vec<u8>,
    pub files: Option<TornFiles>,
}

impl Drop for Answer {
    fn drop(self) {
        let Answer { text, files } = self;
        drop(text);
        drop(files);
    }
}

// A rule with its place.
fn at(alloc: Global, rule: &str, place: Place) -> Result<String, AllocError> {
    let line = place.line;
    let column = place.column;
    Ok(format!(in alloc; "{rule} {line}:{column}\n")?)
}

// What reading a source answers.
fn read_text(alloc: Global, source: &[u8]) -> Result<String, AllocError> {
    match parse(alloc, source) {
        Ok(_) => String::from_str(alloc, "ok\n"),
        Err(ParseFault::S1(place)) => at(alloc, "S1", place),
        Err(ParseFault::S2(place)) => at(alloc, "S2", place),
        Err(ParseFault::S3(place)) => at(alloc, "S3", place),
        Err(ParseFault::S4(place)) => at(alloc, "S4", place),
        Err(ParseFault::Nesting) => String::from_str(alloc, "nesting\n"),
        Err(ParseFault::Memory) => String::from_str(alloc, "no memory\n"),
    }
}

// What the names of a source answer.
fn names_text(alloc: Global, source: &[u8]) -> Result<String, AllocError> {
    let Ok(program) = parse(alloc, source) else {
        return String::from_str(alloc, "no program\n");
    };
    let Ok(declared) = Declarations::new(alloc, program.items.as_slice()) else {
        return String::from_str(alloc, "no memory\n");
    };
    match check_names(alloc, &declared) {
        Ok(()) => String::from_str(alloc, "ok\n"),
        Err(NamingFault::N1(place)) => at(alloc, "N1", place),
        Err(NamingFault::N2(place)) => at(alloc, "N2", place),
        Err(NamingFault::N4(place)) => at(alloc, "N4", place),
        Err(NamingFault::Memory) => String::from_str(alloc, "no memory\n"),
    }
}

// A fault of resolving.
fn fault_text(alloc: Global, fault: Fault) -> Result<String, AllocError> {
    match fault {
        Fault::N1(place) => at(alloc, "N1", place),
        Fault::N2(place) => at(alloc, "N2", place),
        Fault::N3(place) => at(alloc, "N3", place),
        Fault::N4(place) => at(alloc, "N4", place),
        Fault::N5(place) => at(alloc, "N5", place),
        Fault::Limit(limit) => String::from_str(alloc, limit_name(limit)),
        Fault::Memory => String::from_str(alloc, "no memory\n"),
    }
}

// What resolving a source answers: its kernel, where that is asked for.
fn resolve_text(alloc: Global, source: &[u8], whole: bool) -> Result<String, AllocError> {
    let Ok(program) = parse(alloc, source) else {
        return String::from_str(alloc, "no program\n");
    };
    match resolve(alloc, &program) {
        Ok(kernel) if whole => kernel_text(alloc, &kernel),
        Ok(_) => String::from_str(alloc, "ok\n"),
        Err(fault) => fault_text(alloc, fault),
    }
}

// What words call for.
fn words_text(alloc: Global, words: &[String]) -> Result<String, AllocError> {
    match read_words(alloc, words) {
        Ok(None) => String::from_str(alloc, "none\n"),
        Ok(Some(Command::Check { file })) => Ok(format!(in alloc; "check {file}\n")?),
        Ok(
            Some(
                Command::Build {
                    file,
                    text,
                    certificate,
                },
            ),
        ) => Ok(format!(in alloc; "build {file} {text} {certificate}\n")?),
        Ok(Some(Command::Recheck { file, certificate })) => {
            Ok(format!(in alloc; "recheck {file} {certificate}\n")?)
        }
        Ok(
            Some(
                Command::Run {
                    file,
                    entry,
                    heap,
                    steps,
                },
            ),
        ) => Ok(format!(in alloc; "run {file} {entry} {heap} {steps}\n")?),
        Ok(Some(Command::Gen { number })) => Ok(format!(in alloc; "gen {number}\n")?),
        Err(_) => String::from_str(alloc, "no memory\n"),
    }
}

// The bytes of the first file.
fn source_of(files: &[(Name, Vec<u8>)]) -> &[u8] {
    match files.first() {
        Some(file) => file.1.as_slice(),
        None => b"".as_slice(),
    }
}

// What a call of a crate answers, by its name.
fn called(
    alloc: Global,
    name: &[u8],
    words: &[String],
    source: &[u8],
) -> Result<String, AllocError> {
    match name {
        b"words" => words_text(alloc, words),
        b"cread" => read_c_text(alloc, source),
        b"crun" => run_text(alloc, words, source),
        b"eval" => eval_text(alloc, words, source),
        b"read" => read_text(alloc, source),
        b"names" => names_text(alloc, source),
        b"resolve" => resolve_text(alloc, source, false),
        b"kernel" => resolve_text(alloc, source, true),
        b"instances" => count_text(alloc, source),
        b"mono" => copies_text(alloc, source),
        b"built" => built_text(alloc, words, source),
        b"store" => store_text(alloc, words),
        b"flat" => flat_text(alloc, words),
        _ => String::from_str(alloc, "no such call\n"),
    }
}

// The files of a case, which the program may change.
fn held(
    alloc: Global,
    files: &[(Name, Vec<u8>)],
    failing: &[(u64, usize)],
) -> Result<TornFiles, AllocError> {
    let mut held = Vec::new(alloc);
    for (name, bytes) in files {
        let Ok(name) = Name::new(alloc, name.bytes()) else {
            return Err(AllocError);
        };
        held.push((name, bytes.as_slice().to_vec(alloc)?))?;
    }
    Ok(TornFiles::new(alloc, held, failing.to_vec(alloc)?))
}

// The status and what was printed, as a case has them.
fn answered(alloc: Global, code: u8, printed: &[u8]) -> Result<Vec<u8>, AllocError> {
    let status = format!(in alloc; "{code}")?;
    let mut text = status.as_bytes().to_vec(alloc)?;
    if printed.is_empty() {
        text.push(b'\n')?;
    } else {
        text.push(b' ')?;
        text.extend_from_slice(printed)?;
    }
    Ok(text)
}

// What the program answers on words: its status, and what it prints.
fn commanded(alloc: Global, words: &[String], case: &Case) -> Result<Answer, AllocError> {
    let mut files = held(alloc, case.files.as_slice(), case.failing.as_slice())?;
    let mut out = TornSink::new(alloc, case.unwritten.as_slice().to_vec(alloc)?);
    let code = cogent(alloc, words, &mut files, &mut out).code();
    let text = answered(alloc, code, out.bytes())?;
    Ok(Answer {
        text,
        files: Some(files),
    })
}

/// What the call of a case answers.
pub fn answer_of(alloc: Global, case: &Case) -> Result<Answer, AllocError> {
    match &case.called {
        Called::Command(words) => commanded(alloc, words.as_slice(), case),
        Called::Call(name, words) => {
            let source = source_of(case.files.as_slice());
            let text = called(alloc, name.as_slice(), words.as_slice(), source)?;
            Ok(Answer {
                text: text.as_bytes().to_vec(alloc)?,
                files: None,
            })
        }
    }
}
