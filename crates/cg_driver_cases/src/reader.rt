// Goes through a file of cases, line by line.
use crate::Counts;
use crate::answer::is_wanted;
use crate::call::answer_of;
use crate::case::Case;
use crate::text::TextFault;
use std::alloc::{AllocError, Global};

// Says where a line is no line of a case.
fn malformed(name: &str, line: u64, told: &mut String) -> Result<(), AllocError> {
    write!(told, "{name}:{line}: no line of a case\n")?;
    Ok(())
}

// Says what a case was answered.
fn tell_difference(
    name: &str,
    line: u64,
    text: &[u8],
    told: &mut String,
) -> Result<(), AllocError> {
    write!(told, "{name}:{line}: answered ")?;
    for byte in text {
        told.push(char::from(*byte))?;
    }
    Ok(())
}

// Makes the call of a case, and tells a difference.
fn run_case(
    alloc: Global,
    name: &str,
    case: Option<Case>,
    counts: &mut Counts,
    told: &mut String,
) -> Result<(), AllocError> {
    match case {
        None => Ok(()),
        Some(case) => {
            counts.cases = counts.cases.saturating_add(1);
            let answer = answer_of(alloc, &case)?;
            if is_wanted(&case, &answer) {
                return Ok(());
            }
            counts.differences = counts.differences.saturating_add(1);
            tell_difference(name, case.line, &answer.text, told)
        }
    }
}

// A line that is no comment: a mark, and what stands behind it and one space.
fn marked(line: &[u8]) -> Option<(u8, &[u8])> {
    match line {
        [] => None,
        [b'-', b'-', ..] => None,
        [b'|', text @ ..] => Some((b'|', text)),
        [mark, b' ', text @ ..] => Some((*mark, text)),
        [mark, text @ ..] => Some((*mark, text)),
    }
}

// Begins a case.
fn begun(alloc: Global, line: u64, mark: u8, text: &[u8]) -> Result<Case, TextFault> {
    if mark == b'$' {
        Case::command(alloc, line, text)
    } else {
        Case::call(alloc, line, text)
    }
}

// The case that is open, among the lines of a file.
struct Reader<'a> {
    alloc: Global,
    name: &'a str,
    number: u64,
    open: Option<Case>,
}

impl<'a> Drop for Reader<'a> {
    fn drop(self) {
        let Reader {
            alloc: _,
            name: _,
            number: _,
            open,
        } = self;
        drop(open);
    }
}

impl<'a> Reader<'a> {
    // Makes the call of the case that is open, which then is none.
    fn close(&mut self, counts: &mut Counts, told: &mut String) -> Result<(), AllocError> {
        run_case(self.alloc, self.name, self.open.take(), counts, told)
    }

    // Tells a line that is none of a case, unless memory was wanting.
    fn tell(&self, fault: TextFault, told: &mut String) -> Result<(), AllocError> {
        match fault {
            TextFault::Escape => malformed(self.name, self.number, told),
            TextFault::Memory => Err(AllocError),
        }
    }

    // Begins a case.
    fn begin(&mut self, mark: u8, text: &[u8], told: &mut String) -> Result<(), AllocError> {
        match begun(self.alloc, self.number, mark, text) {
            Ok(case) => {
                self.open = Some(case);
                Ok(())
            }
            Err(fault) => self.tell(fault, told),
        }
    }

    // Goes on with the case that is open.
    fn go_on(&mut self, mark: u8, text: &[u8], told: &mut String) -> Result<(), AllocError> {
        let pushed = match &mut self.open {
            Some(case) => case.push_line(self.alloc, mark, text),
            None => Err(TextFault::Escape),
        };
        match pushed {
            Ok(()) => Ok(()),
            Err(fault) => self.tell(fault, told),
        }
    }

    // A line.
    fn take(
        &mut self,
        line: &[u8],
        counts: &mut Counts,
        told: &mut String,
    ) -> Result<(), AllocError> {
        self.number = self.number.saturating_add(1);
        match marked(line) {
            None => Ok(()),
            Some((mark, text)) if mark == b'$' || mark == b'%' => {
                self.close(counts, told)?;
                self.begin(mark, text, told)
            }
            Some((mark, text)) => self.go_on(mark, text, told),
        }
    }
}

/// Makes the calls of the cases of a file, and tells each difference (docs/CASES.md).
pub fn run_all(
    alloc: Global,
    name: &str,
    bytes: &[u8],
    counts: &mut Counts,
    told: &mut String,
) -> Result<(), AllocError> {
    let mut reader = Reader {
        alloc,
        name,
        number: 0,
        open: None,
    };
    for line in bytes.split(|byte| *byte == b'\n') {
        reader.take(line, counts, told)?;
    }
    reader.close(counts, told)
}
