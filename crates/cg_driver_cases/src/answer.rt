// Whether an answer is the one that is wanted.
use crate::call::Answer;
use crate::case::Case;
use cg_base::{Name, is_digit};

// Whether a line is wanted: `steps: *` stands for any number of steps, which the design leaves open.
fn same_line(wanted: &[u8], found: &[u8]) -> bool {
    if wanted == b"steps: *".as_slice() {
        return match found.strip_prefix(b"steps: ".as_slice()) {
            Some(digits) => !digits.is_empty() && digits.iter().all(|byte| is_digit(*byte)),
            None => false,
        };
    }
    wanted == found
}

// Whether a text is wanted, line by line.
fn same_text(wanted: &[u8], found: &[u8]) -> bool {
    let mut lines = found.split(|byte| *byte == b'\n');
    for line in wanted.split(|byte| *byte == b'\n') {
        match lines.next() {
            Some(other) if same_line(line, other) => {}
            _ => return false,
        }
    }
    lines.next().is_none()
}

// What a file of a case is wanted to hold afterwards: what the case says, or else what it held before.
fn wanted_of<'a>(case: &'a Case, name: &Name, before: &'a [u8]) -> &'a [u8] {
    for (other, bytes) in &case.after {
        if other.same(name) {
            return bytes.as_slice();
        }
    }
    before
}

// Whether a file holds these bytes.
fn holds(answer: &Answer, name: &Name, bytes: &[u8]) -> bool {
    match (&answer.files, str::from_utf8(name.bytes())) {
        (Some(files), Ok(name)) => files.contents(name) == Some(bytes),
        (Some(_), Err(_)) => false,
        (None, _) => true,
    }
}

/// Whether an answer is the one that its case wants, with the files afterwards.
pub fn is_wanted(case: &Case, answer: &Answer) -> bool {
    if !same_text(case.wanted.as_slice(), answer.text.as_slice()) {
        return false;
    }
    for (name, bytes) in &case.files {
        if !holds(answer, name, wanted_of(case, name, bytes.as_slice())) {
            return false;
        }
    }
    for (name, bytes) in &case.after {
        if !holds(answer, name, bytes.as_slice()) {
            return false;
        }
    }
    true
}
