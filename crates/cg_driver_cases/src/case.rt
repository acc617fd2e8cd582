// Cases: what is called, on which files, and what is wanted.
use crate::text::{TextFault, text_of};
use cg_base::{Name, literal};
use std::alloc::Global;

/// What is called: the program on words, or a call of a crate on a source, by its name.
#[derive(Drop)]
pub enum Called {
    Command(Vec<String>),
    Call(Vec<u8>, Vec<String>),
}

/// Where the lines of text that follow belong to.
#[derive(Clone, Copy)]
pub enum Part {
    Before,
    Answer,
    After,
}

/// A case: the line that it begins on, what is called, the name of the file that the first lines of text are, the files before, the
/// calls of files and of the output that fail, by their number, each after so many bytes, the answer that is wanted, and the files that
/// are wanted afterwards (others stay as they were).
pub struct Case {
    pub line: u64,
    pub called: Called,
    first: Option<Name>,
    pub files: Vec<(Name, Vec<u8>)>,
    pub failing: Vec<(u64, usize)>,
    pub unwritten: Vec<(u64, usize)>,
    pub wanted: Vec<u8>,
    pub after: Vec<(Name, Vec<u8>)>,
    pub part: Part,
}

impl Drop for Case {
    fn drop(self) {
        let Case {
            line: _,
            called,
            first,
            files,
            failing,
            unwritten,
            wanted,
            after,
            part: _,
        } = self;
        drop(called);
        drop(first);
        drop(files);
        drop(failing);
        drop(unwritten);
        drop(wanted);
        drop(after);
    }
}

// The words of a line, parted by single spaces.
fn words_of(alloc: Global, line: &[u8]) -> Result<Vec<String>, TextFault> {
    let mut words = Vec::new(alloc);
    if line.is_empty() {
        return Ok(words);
    }
    for word in line.split(|byte| *byte == b' ') {
        let bytes = text_of(alloc, word, false)?;
        match String::from_utf8(bytes) {
            Ok(word) => words.push(word)?,
            Err(_) => return Err(TextFault::Escape),
        }
    }
    Ok(words)
}

// A call that fails: its number and, behind a colon, after how many bytes; after none where that isn't said.
fn torn_call(word: &[u8]) -> Option<(u64, usize)> {
    match word.iter().position(|byte| *byte == b':') {
        Some(at) => {
            let count = literal(&word[at + 1..])?;
            Some((literal(&word[..at])?, count as usize))
        }
        None => Some((literal(word)?, 0)),
    }
}

// The file that a command's first lines of text are: the one that its second word names.
fn first_file(alloc: Global, words: &[String]) -> Result<Name, TextFault> {
    match words.get(1) {
        Some(word) => Ok(Name::new(alloc, word.as_bytes())?),
        None => Ok(Name::new(alloc, b"a.cg")?),
    }
}

impl Case {
    // A case without files.
    fn begun(alloc: Global, line: u64, called: Called, file: Name) -> Result<Case, TextFault> {
        Ok(Case {
            line,
            called,
            first: Some(file),
            files: Vec::new(alloc),
            failing: Vec::new(alloc),
            unwritten: Vec::new(alloc),
            wanted: Vec::new(alloc),
            after: Vec::new(alloc),
            part: Part::Before,
        })
    }

    /// A command, by its words.
    pub fn command(alloc: Global, line: u64, text: &[u8]) -> Result<Case, TextFault> {
        let words = words_of(alloc, text)?;
        let file = first_file(alloc, words.as_slice())?;
        Case::begun(alloc, line, Called::Command(words), file)
    }

    /// A call of a crate, by its name.
    pub fn call(alloc: Global, line: u64, text: &[u8]) -> Result<Case, TextFault> {
        let file = Name::new(alloc, b"a.cg")?;
        let (name, words) = match text.iter().position(|byte| *byte == b' ') {
            Some(at) => (&text[..at], words_of(alloc, &text[at + 1..])?),
            None => (text, Vec::new(alloc)),
        };
        Case::begun(alloc, line, Called::Call(name.to_vec(alloc)?, words), file)
    }

    // Bytes at the end of the last file.
    fn push_bytes(files: &mut Vec<(Name, Vec<u8>)>, bytes: &[u8]) -> Result<(), TextFault> {
        match files.last_mut() {
            Some(file) => {
                file.1.extend_from_slice(bytes)?;
                Ok(())
            }
            None => Err(TextFault::Escape),
        }
    }

    // A line of a file before: of the first one, where none is named.
    fn push_before(&mut self, alloc: Global, bytes: &[u8]) -> Result<(), TextFault> {
        if let Some(name) = self.first.take() {
            self.files.push((name, Vec::new(alloc)))?;
        }
        Case::push_bytes(&mut self.files, bytes)
    }

    // A file by its name.
    fn push_file(&mut self, alloc: Global, name: &[u8]) -> Result<(), TextFault> {
        self.part = Part::Before;
        if let Some(name) = self.first.take() {
            drop(name);
        }
        self.files.push((Name::new(alloc, name)?, Vec::new(alloc)))?;
        Ok(())
    }

    // A file that is wanted afterwards, by its name.
    fn push_after(&mut self, alloc: Global, name: &[u8]) -> Result<(), TextFault> {
        self.part = Part::After;
        self.after.push((Name::new(alloc, name)?, Vec::new(alloc)))?;
        Ok(())
    }

    // A line of the answer.
    fn push_wanted(&mut self, alloc: Global, line: &[u8]) -> Result<(), TextFault> {
        self.part = Part::Answer;
        let bytes = text_of(alloc, line, true)?;
        self.wanted.extend_from_slice(bytes.as_slice())?;
        Ok(())
    }

    // A line of the last file.
    fn push_text(&mut self, alloc: Global, line: &[u8]) -> Result<(), TextFault> {
        let bytes = text_of(alloc, line, true)?;
        match self.part {
            Part::Before => self.push_before(alloc, bytes.as_slice()),
            Part::After => Case::push_bytes(&mut self.after, bytes.as_slice()),
            Part::Answer => Err(TextFault::Escape),
        }
    }

    // The calls that fail: of files, or of the output.
    fn push_failing(&mut self, line: &[u8]) -> Result<(), TextFault> {
        let mut words = line.split(|byte| *byte == b' ');
        let of_output = words.next() == Some(b"output".as_slice());
        for word in words {
            let Some(call) = torn_call(word) else {
                return Err(TextFault::Escape);
            };
            if of_output {
                self.unwritten.push(call)?;
            } else {
                self.failing.push(call)?;
            }
        }
        Ok(())
    }

    /// A line behind the first one, by its mark: `@` names a file, `~` one that is wanted afterwards, `|` is a line of it, `!` says
    /// which calls fail, `=` begins the answer and `>` goes on with it.
    pub fn push_line(&mut self, alloc: Global, mark: u8, line: &[u8]) -> Result<(), TextFault> {
        match mark {
            b'@' => self.push_file(alloc, line),
            b'!' => self.push_failing(line),
            b'~' => self.push_after(alloc, line),
            b'=' | b'>' => self.push_wanted(alloc, line),
            b'|' => self.push_text(alloc, line),
            _ => Err(TextFault::Escape),
        }
    }
}
