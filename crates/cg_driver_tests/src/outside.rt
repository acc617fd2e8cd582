// Calls of the program over an outside that fails at some calls, one behind the other, and over one that never fails.
use crate::sources::{BUMP, BUMP_CERTIFICATE};
use cg_base::Name;
use cg_driver::{Status, cogent, honest_cogent};
use cg_outside::{HonestFiles, HonestSink, MemoryFiles, MemorySink};
use std::alloc::Global;
use std::test::Fail;

/// A list of files with one source, `a.cg`.
fn one_file(alloc: Global, source: &[u8]) -> Result<Vec<(Name, Vec<u8>)>, Fail> {
    let mut files = Vec::new(alloc);
    files.push((Name::new(alloc, b"a.cg")?, source.to_vec(alloc)?))?;
    Ok(files)
}

/// Words.
fn words_of(alloc: Global, texts: &[&str]) -> Result<Vec<String>, Fail> {
    let mut words = Vec::new(alloc);
    for text in texts {
        words.push(String::from_str(alloc, text)?)?;
    }
    Ok(words)
}

/// The words `check NAME`.
fn check_of(alloc: Global, name: &str) -> Result<Vec<String>, Fail> {
    words_of(alloc, &["check", name])
}

#[test]
fn a_fault_is_told_in_its_own_call(rt: HostRuntime) -> Result<(), Fail> {
    let alloc = rt.alloc();
    let words = check_of(alloc, "a.cg")?;
    let mut files = MemoryFiles::new(alloc, one_file(alloc, b"")?, vec![in alloc; 1]?);
    let mut out = MemorySink::new(alloc, vec![in alloc; 2]?);
    let read_fault = cogent(alloc, &words, &mut files, &mut out);
    assert_eq!(rt; read_fault, Status::ReadFault);
    assert_eq!(rt; out.bytes(), b"a.cg: cannot be read\n".as_slice());
    let write_fault = cogent(alloc, &words, &mut files, &mut out);
    assert_eq!(rt; write_fault, Status::WriteFault);
    assert_eq!(rt; out.bytes(), b"a.cg: cannot be read\n".as_slice());
    let done = cogent(alloc, &words, &mut files, &mut out);
    assert_eq!(rt; done, Status::Done);
    assert_eq!(rt;
        out.bytes(),
        b"a.cg: cannot be read\nok: 0 functions\n".as_slice()
    );
    Ok(())
}

#[test]
fn an_honest_outside_answers(rt: HostRuntime) -> Result<(), Fail> {
    let alloc = rt.alloc();
    let mut files = HonestFiles::new(alloc, one_file(alloc, b"f : U32 -> U32\nf x = x\n")?);
    let mut out = HonestSink::new(alloc);
    let status = honest_cogent(alloc, &check_of(alloc, "a.cg")?, &mut files, &mut out);
    assert_eq!(rt; status, Status::Done);
    assert_eq!(rt; out.bytes(), b"ok: 1 functions\n".as_slice());
    let status = honest_cogent(alloc, &check_of(alloc, "b.cg")?, &mut files, &mut out);
    assert_eq!(rt; status, Status::Done);
    Ok(())
}

/// The C text of `BUMP`.
const BUMP_TEXT: &str = "#include <stdint.h>
#include \"cogent.h\"

struct s0 {
    uint32_t m0;
    uint8_t m1;
};

struct s0 *f0(struct s0 *a0) {
    uint32_t x0;
    uint32_t x1;
    x0 = a0->m0;
    x1 = (uint32_t)((uint32_t)x0 + (uint32_t)1ull);
    a0->m0 = x1;
    return a0;
}
";

#[test]
fn both_files_are_written(rt: HostRuntime) -> Result<(), Fail> {
    let alloc = rt.alloc();
    let words = words_of(alloc, &["build", "a.cg", "a.c", "a.cert"])?;
    let held = one_file(alloc, BUMP.as_bytes())?;
    let mut files = MemoryFiles::new(alloc, held, Vec::new(alloc));
    let mut out = MemorySink::new(alloc, vec![in alloc; 2]?);
    let status = cogent(alloc, &words, &mut files, &mut out);
    assert_eq!(rt; status, Status::Done);
    let printed = b"ok: 1 functions, 1 instances\n".as_slice();
    assert_eq!(rt; out.bytes(), printed);
    assert_eq!(rt; files.contents("a.c"), Some(BUMP_TEXT.as_bytes()));
    assert_eq!(rt; files.contents("a.cert"), Some(BUMP_CERTIFICATE.as_bytes()));
    // The next write to the output fails: both files stand whole all the same.
    let status = cogent(alloc, &words, &mut files, &mut out);
    assert_eq!(rt; status, Status::WriteFault);
    assert_eq!(rt; out.bytes(), printed);
    assert_eq!(rt; files.contents("a.cert"), Some(BUMP_CERTIFICATE.as_bytes()));
    Ok(())
}

#[test]
fn a_certificate_that_fails_leaves_the_text(rt: HostRuntime) -> Result<(), Fail> {
    let alloc = rt.alloc();
    let words = words_of(alloc, &["build", "a.cg", "a.c", "a.cert"])?;
    let held = one_file(alloc, BUMP.as_bytes())?;
    let mut files = MemoryFiles::new(alloc, held, vec![in alloc; 3]?);
    let mut out = MemorySink::new(alloc, Vec::new(alloc));
    let status = cogent(alloc, &words, &mut files, &mut out);
    assert_eq!(rt; status, Status::WriteFault);
    assert_eq!(rt; out.bytes(), b"a.cert: cannot be written\n".as_slice());
    assert_eq!(rt; files.contents("a.c"), Some(BUMP_TEXT.as_bytes()));
    assert_eq!(rt; files.contents("a.cert"), Some(b"".as_slice()));
    Ok(())
}
