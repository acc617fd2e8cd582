// Values: copies, and their texts.
use cg_base::{Items, Name, Ty, Word};
use cg_value::{Value, print_value};
use std::test::Fail;

#[test]
fn values_are_copied_and_words_printed(rt: HostRuntime) -> Result<(), Fail> {
    let alloc = rt.alloc();
    let mut fields = Items::new(alloc);
    fields.push(Value::Num(7))?;
    fields.push(Value::Gone)?;
    let value = Value::Variant(
        Name::new(alloc, b"Some")?,
        Box::new(alloc, Value::Fields(fields))?,
    );
    assert!(rt; matches!(value.copy(alloc)?, Value::Variant(..)));
    let text = print_value(alloc, &Value::Num(4_294_967_295), &Ty::Word(Word::U32))?;
    assert_eq!(rt; text.as_slice(), b"4294967295".as_slice());
    Ok(())
}
