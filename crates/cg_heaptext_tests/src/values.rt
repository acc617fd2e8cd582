// What values are, without parentheses round them.
use cg_heaptext_entries::read_entries;
use cg_heaptext_values::{FieldAt, Head, ValueAt, fields_of};
use std::test::Fail;

const FILE: &str = "@1 = {a = ((1, (2)), True), b = A ((B)), c = (((#{d = ()})))}
arg = ((_))
";

/// What a value is, in a letter.
fn letter(value: &ValueAt) -> u8 {
    match value.head() {
        Head::Number(_) => b'n',
        Head::Truth(_) => b't',
        Head::Nothing => b'u',
        Head::Gone => b'g',
        Head::Address(_, _) => b'@',
        Head::Constant(_) => b'c',
        Head::Applied(_, _) => b'a',
        Head::Tuple(_) => b'p',
        Head::Record(_) => b'r',
    }
}

/// What the two values of a tuple, the payload of a constructor, or the field of a record is.
fn inside(value: &ValueAt) -> u8 {
    match value.head() {
        Head::Tuple(values) => {
            let mut values = values;
            match values.next() {
                Some(first) => letter(&first),
                None => b'-',
            }
        }
        Head::Applied(_, payload) => letter(&payload),
        Head::Record(fields) => {
            let mut fields = fields;
            match fields.next() {
                Some(FieldAt { name: _, value }) => letter(&value),
                None => b'-',
            }
        }
        _ => b'-',
    }
}

#[test]
fn values_are_told(rt: HostRuntime) -> Result<(), Fail> {
    let index = match read_entries(rt.alloc(), FILE.as_bytes()) {
        Ok(index) => index,
        Err(_) => panic!(rt; "no heap file"),
    };
    let argument = ValueAt::argument(&index);
    assert!(rt; letter(&argument) == b'g');
    assert!(rt; argument.place().column == 7);
    match index.entries.as_slice() {
        [record] => {
            let mut fields = fields_of(&record.cell);
            for (name, head, part) in [(b"a", b'p', b'p'), (b"b", b'a', b'c'), (b"c", b'r', b'u')] {
                match fields.next() {
                    Some(field) => {
                        assert!(rt; field.name == name.as_slice());
                        assert!(rt; letter(&field.value) == head);
                        assert!(rt; inside(&field.value) == part);
                    }
                    None => panic!(rt; "a field is missing"),
                }
            }
            assert!(rt; fields.next().is_none());
            Ok(())
        }
        _ => panic!(rt; "other entries"),
    }
}
