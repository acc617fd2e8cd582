// Values as words of a case (docs/CASES.md, "Values").
use cg_base::{Items, Memory, Name};
use cg_value::Value;
use std::alloc::{AllocError, AllocFailed, Global};

/// Why a word spells no value.
#[derive(Clone, Copy)]
pub enum ValueFault {
    Text,
    Memory,
}

impl From<AllocError> for ValueFault {
    fn from(_: AllocError) -> ValueFault {
        ValueFault::Memory
    }
}

impl<T: Drop> From<AllocFailed<T>> for ValueFault {
    fn from(_: AllocFailed<T>) -> ValueFault {
        ValueFault::Memory
    }
}

impl From<Memory> for ValueFault {
    fn from(_: Memory) -> ValueFault {
        ValueFault::Memory
    }
}

/// What has been opened: the word itself, a record, an array, answers, or parentheses behind a name.
#[derive(Drop)]
enum Bracket {
    Word,
    Record,
    Array,
    Answers,
    Payload(Vec<u8>),
}

/// A bracket with the values behind it.
struct Open {
    bracket: Bracket,
    values: Vec<Value>,
}

impl Drop for Open {
    fn drop(self) {
        let Open { bracket, values } = self;
        drop(bracket);
        drop(values);
    }
}

/// What of a token is read.
#[derive(Drop)]
enum Token {
    Nothing,
    Number(u64),
    Name(Vec<u8>),
}

/// A word that is being read: the brackets that are open round the last one, that one, and a token in it.
struct Reading {
    alloc: Global,
    outer: Vec<Open>,
    here: Open,
    token: Token,
}

impl Drop for Reading {
    fn drop(self) {
        let Reading {
            alloc: _,
            outer,
            here,
            token,
        } = self;
        drop(outer);
        drop(here);
        drop(token);
    }
}

// An alternative without a payload, a truth value, or what is gone.
fn named(alloc: Global, name: &[u8]) -> Result<Value, ValueFault> {
    match name {
        b"_" => Ok(Value::Gone),
        b"True" => Ok(Value::Num(1)),
        b"False" => Ok(Value::Num(0)),
        _ => alternative(alloc, name, Value::Unit),
    }
}

// An alternative with its payload.
fn alternative(alloc: Global, name: &[u8], payload: Value) -> Result<Value, ValueFault> {
    let payload = Box::new(alloc, payload)?;
    Ok(Value::Variant(Name::new(alloc, name)?, payload))
}

// The values of a record.
fn record(alloc: Global, values: Vec<Value>) -> Result<Value, ValueFault> {
    let mut fields = Items::new(alloc);
    for value in values {
        fields.push(value)?;
    }
    Ok(Value::Fields(fields))
}

// Numbers as the elements of an array.
fn array(alloc: Global, values: &[Value]) -> Result<Value, ValueFault> {
    let mut numbers = Items::new(alloc);
    for value in values {
        numbers.push(value.number())?;
    }
    Ok(Value::Array(numbers))
}

// Numbers as answers, of which 0 is no.
fn answers(alloc: Global, values: &[Value]) -> Result<Value, ValueFault> {
    let mut answers = Items::new(alloc);
    for value in values {
        answers.push(value.is_true())?;
    }
    Ok(Value::Answers(answers))
}

// What parentheses behind a name hold: unit where there is neither.
fn payload(alloc: Global, name: &[u8], values: Vec<Value>) -> Result<Value, ValueFault> {
    let mut values = values;
    match values.pop() {
        Some(value) if values.is_empty() && !name.is_empty() => alternative(alloc, name, value),
        None if name.is_empty() => Ok(Value::Unit),
        _ => Err(ValueFault::Text),
    }
}

impl Open {
    fn new(alloc: Global, bracket: Bracket) -> Open {
        Open {
            bracket,
            values: Vec::new(alloc),
        }
    }

    // The value that a closing byte makes of what was opened.
    fn closed(self, alloc: Global, byte: u8) -> Result<Value, ValueFault> {
        let Open { bracket, values } = self;
        match (bracket, byte) {
            (Bracket::Record, b'}') => record(alloc, values),
            (Bracket::Array, b']') => array(alloc, values.as_slice()),
            (Bracket::Answers, b'>') => answers(alloc, values.as_slice()),
            (Bracket::Payload(name), b')') => payload(alloc, name.as_slice(), values),
            _ => Err(ValueFault::Text),
        }
    }
}

impl Reading {
    fn new(alloc: Global) -> Reading {
        Reading {
            alloc,
            outer: Vec::new(alloc),
            here: Open::new(alloc, Bracket::Word),
            token: Token::Nothing,
        }
    }

    // A digit, in a number or a name.
    fn digit(&mut self, byte: u8) -> Result<(), ValueFault> {
        let digit = u64::from(byte.saturating_sub(b'0'));
        match std::mem::replace(&mut self.token, Token::Nothing) {
            Token::Nothing => self.token = Token::Number(digit),
            Token::Number(number) => {
                let number = number.saturating_mul(10).saturating_add(digit);
                self.token = Token::Number(number);
            }
            Token::Name(mut name) => {
                name.push(byte)?;
                self.token = Token::Name(name);
            }
        }
        Ok(())
    }

    // A letter of a name.
    fn letter(&mut self, letter: u8) -> Result<(), ValueFault> {
        let mut name = match std::mem::replace(&mut self.token, Token::Nothing) {
            Token::Name(name) => name,
            Token::Nothing => Vec::new(self.alloc),
            Token::Number(_) => return Err(ValueFault::Text),
        };
        name.push(letter)?;
        self.token = Token::Name(name);
        Ok(())
    }

    // The token ends.
    fn end_token(&mut self) -> Result<(), ValueFault> {
        match std::mem::replace(&mut self.token, Token::Nothing) {
            Token::Nothing => {}
            Token::Number(number) => self.here.values.push(Value::Num(number))?,
            Token::Name(name) => self.here.values.push(named(self.alloc, name.as_slice())?)?,
        }
        Ok(())
    }

    fn open(&mut self, bracket: Bracket) -> Result<(), ValueFault> {
        let inner = Open::new(self.alloc, bracket);
        self.outer.push(std::mem::replace(&mut self.here, inner))?;
        Ok(())
    }

    // Parentheses, behind a name or not.
    fn open_payload(&mut self) -> Result<(), ValueFault> {
        match std::mem::replace(&mut self.token, Token::Nothing) {
            Token::Name(name) => self.open(Bracket::Payload(name)),
            Token::Nothing => self.open(Bracket::Payload(Vec::new(self.alloc))),
            Token::Number(_) => Err(ValueFault::Text),
        }
    }

    fn close(&mut self, byte: u8) -> Result<(), ValueFault> {
        self.end_token()?;
        let Some(outer) = self.outer.pop() else {
            return Err(ValueFault::Text);
        };
        let inner = std::mem::replace(&mut self.here, outer);
        let value = inner.closed(self.alloc, byte)?;
        self.here.values.push(value)?;
        Ok(())
    }

    fn step(&mut self, byte: u8) -> Result<(), ValueFault> {
        match byte {
            b'0'..=b'9' => self.digit(byte),
            b'{' => self.open(Bracket::Record),
            b'[' => self.open(Bracket::Array),
            b'<' => self.open(Bracket::Answers),
            b'(' => self.open_payload(),
            b'}' | b']' | b'>' | b')' => self.close(byte),
            b',' => self.end_token(),
            _ => self.letter(byte),
        }
    }
}

/// The value that a word spells: a number, `True` or `False`, `()`, an alternative `Name` or `Name(v)`, a record `{v,v}`, an array `[1,2]`,
/// the answers of an allocator `<1,0>`, or `_` for what is gone.
pub fn read_value(alloc: Global, word: &[u8]) -> Result<Value, ValueFault> {
    let mut reading = Reading::new(alloc);
    for byte in word {
        reading.step(*byte)?;
    }
    reading.end_token()?;
    match reading.here.values.pop() {
        Some(value) if reading.here.values.is_empty() && reading.outer.is_empty() => Ok(value),
        _ => Err(ValueFault::Text),
    }
}
