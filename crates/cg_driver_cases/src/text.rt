// The text of a line of a case: its bytes as they stand, but for what a backslash begins.
use cg_base::Memory;
use itoa::Buffer;
use std::alloc::{AllocError, AllocFailed, Global};

/// Why a line makes no text.
#[derive(Clone, Copy)]
pub enum TextFault {
    Escape,
    Memory,
}

impl From<AllocError> for TextFault {
    fn from(_: AllocError) -> TextFault {
        TextFault::Memory
    }
}

impl<T: Drop> From<AllocFailed<T>> for TextFault {
    fn from(_: AllocFailed<T>) -> TextFault {
        TextFault::Memory
    }
}

impl From<Memory> for TextFault {
    fn from(_: Memory) -> TextFault {
        TextFault::Memory
    }
}

/// What of an escape is read.
#[derive(Clone, Copy)]
enum Escape {
    Nothing,
    Backslash,
    Byte,
    Digit(u8),
}

/// A text without repetitions. In what is repeated, `number` says how often it was before.
#[derive(Drop)]
struct Plain {
    made: Vec<u8>,
    number: u64,
    escape: Escape,
}

// The value of a hexadecimal digit.
fn digit(byte: u8) -> Result<u8, TextFault> {
    match byte {
        b'0'..=b'9' => Ok(byte - b'0'),
        b'a'..=b'f' => Ok(byte - b'a' + 10),
        _ => Err(TextFault::Escape),
    }
}

impl Plain {
    fn new(alloc: Global, number: u64) -> Plain {
        Plain {
            made: Vec::new(alloc),
            number,
            escape: Escape::Nothing,
        }
    }

    fn push_number(&mut self, number: u64) -> Result<(), TextFault> {
        let mut buffer = Buffer::new();
        self.made
            .extend_from_slice(buffer.format(number).as_bytes())?;
        Ok(())
    }

    // The byte behind a backslash.
    fn escaped(&mut self, byte: u8) -> Result<(), TextFault> {
        self.escape = Escape::Nothing;
        match byte {
            b'n' => self.made.push(b'\n')?,
            b't' => self.made.push(b'\t')?,
            b'r' => self.made.push(b'\r')?,
            b's' => self.made.push(b' ')?,
            b'\\' | b'{' | b'}' => self.made.push(byte)?,
            b'x' => self.escape = Escape::Byte,
            b'#' => self.push_number(self.number)?,
            b'+' => self.push_number(self.number.saturating_add(1))?,
            _ => return Err(TextFault::Escape),
        }
        Ok(())
    }

    fn step(&mut self, byte: u8) -> Result<(), TextFault> {
        match self.escape {
            Escape::Nothing if byte == b'\\' => self.escape = Escape::Backslash,
            Escape::Nothing => self.made.push(byte)?,
            Escape::Backslash => self.escaped(byte)?,
            Escape::Byte => self.escape = Escape::Digit(digit(byte)?),
            Escape::Digit(high) => {
                self.made
                    .push(high.wrapping_mul(16).wrapping_add(digit(byte)?))?;
                self.escape = Escape::Nothing;
            }
        }
        Ok(())
    }
}

/// What of a repetition is read: nothing, how often, or that and a part of what is repeated.
#[derive(Drop)]
enum Repeat {
    Nothing,
    Count(u64),
    Piece {
        count: u64,
        piece: Vec<u8>,
        escaped: bool,
    },
}

/// A text that is being made.
#[derive(Drop)]
struct Maker {
    alloc: Global,
    plain: Plain,
    repeat: Repeat,
}

impl Maker {
    // A piece so many times.
    fn push_pieces(&mut self, count: u64, piece: &[u8]) -> Result<(), TextFault> {
        for number in 0..count {
            let mut inner = Plain::new(self.alloc, number);
            for byte in piece {
                inner.step(*byte)?;
            }
            self.plain.made.extend_from_slice(inner.made.as_slice())?;
        }
        Ok(())
    }

    // A byte outside of repetitions: a digit behind a backslash begins one.
    fn outside(&mut self, byte: u8) -> Result<(), TextFault> {
        if matches!(self.plain.escape, Escape::Backslash) && byte.is_ascii_digit() {
            self.plain.escape = Escape::Nothing;
            self.repeat = Repeat::Count(u64::from(digit(byte)?));
            return Ok(());
        }
        self.plain.step(byte)
    }

    // A byte behind the count of a repetition.
    fn counted(&mut self, count: u64, byte: u8) -> Result<(), TextFault> {
        if byte == b'{' {
            self.repeat = Repeat::Piece {
                count,
                piece: Vec::new(self.alloc),
                escaped: false,
            };
            return Ok(());
        }
        if !byte.is_ascii_digit() || count > 10_000_000 {
            return Err(TextFault::Escape);
        }
        self.repeat = Repeat::Count(
            count
                .saturating_mul(10)
                .saturating_add(u64::from(digit(byte)?)),
        );
        Ok(())
    }

    // A byte of what is repeated.
    fn within(
        &mut self,
        count: u64,
        mut piece: Vec<u8>,
        escaped: bool,
        byte: u8,
    ) -> Result<(), TextFault> {
        if byte == b'}' && !escaped {
            return self.push_pieces(count, piece.as_slice());
        }
        piece.push(byte)?;
        self.repeat = Repeat::Piece {
            count,
            piece,
            escaped: byte == b'\\' && !escaped,
        };
        Ok(())
    }

    fn step(&mut self, byte: u8) -> Result<(), TextFault> {
        match std::mem::replace(&mut self.repeat, Repeat::Nothing) {
            Repeat::Nothing => self.outside(byte),
            Repeat::Count(count) => self.counted(count, byte),
            Repeat::Piece {
                count,
                piece,
                escaped,
            } => self.within(count, piece, escaped, byte),
        }
    }
}

/// The bytes that a line stands for. A backslash begins an escape: `\n`, `\t`, `\r`, `\s` (a space), `\\`, `\{`, `\}`, `\xHH`
/// (a byte), and `\N{text}`, a text N times, in which `\#` is how often it was said before and `\+` one more. A backslash at the
/// end leaves out the line feed, which stands behind every other text where one is asked for.
pub fn text_of(alloc: Global, line: &[u8], feed: bool) -> Result<Vec<u8>, TextFault> {
    let mut maker = Maker {
        alloc,
        plain: Plain::new(alloc, 0),
        repeat: Repeat::Nothing,
    };
    for byte in line {
        maker.step(*byte)?;
    }
    let Maker {
        alloc: _,
        plain,
        repeat,
    } = maker;
    let Plain {
        mut made,
        number: _,
        escape,
    } = plain;
    match (repeat, escape) {
        (Repeat::Nothing, Escape::Nothing) => {
            if feed {
                made.push(b'\n')?;
            }
            Ok(made)
        }
        (Repeat::Nothing, Escape::Backslash) => Ok(made),
        _ => Err(TextFault::Escape),
    }
}
