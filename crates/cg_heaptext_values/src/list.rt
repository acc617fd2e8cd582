// What stands in a tuple, in an unboxed record, and in a cell of slots.
ghost use Rattle.std.specs.Prelude.{◌≡◌, List, None, Some};
ghost use Rattle.std.specs.Option.{option_map};
ghost use Rattle.cg_base.specs.declared.place.Place.{Place};
ghost use Rattle.cg_heaptext_def.specs.Trees.{Fields, Written, slots};
ghost use Rattle.cg_heaptext_entries.specs.Index.{CellStands};
ghost use Rattle.cg_heaptext_values.specs.Values.{FieldsStand, TakesField, TakesValue, ValuesStand};

use crate::head::ValueAt;
use crate::pass::pass_value;
use cg_heaptext_lexer::Lexer;

/// What is left of the values of a tuple.
#[derive(Drop)]
pub struct ValuesAt<'a> {
    pub(crate) lexer: Lexer<'a>,
    pub(crate) more: bool,
}

impl<'a> ValuesAt<'a> {
    /// The next value; None exactly where none is left. It takes time in proportion to the value's bytes.
    pub fn next(&mut self) -> Option<ValueAt<'a>>
        ensures { (vs : List Written) → ValuesStand self.old vs → TakesValue vs result self.new }
    {
        if !self.more {
            return None;
        }
        let value = ValueAt {
            lexer: self.lexer.copy(),
        };
        self.more = pass_value(&mut self.lexer);
        Some(value)
    }
}

/// A field: its name, and where its value stands.
#[derive(Drop)]
pub struct FieldAt<'a> {
    pub name: &'a [u8],
    pub value: ValueAt<'a>,
}

/// What is left of the fields of a record.
#[derive(Drop)]
pub struct FieldsAt<'a> {
    pub(crate) lexer: Lexer<'a>,
    pub(crate) more: bool,
}

impl<'a> FieldsAt<'a> {
    /// The next field; None exactly where none is left. It takes time in proportion to the field's bytes.
    pub fn next(&mut self) -> Option<FieldAt<'a>>
        ensures { (fs : Fields) → FieldsStand self.old fs → TakesField fs result self.new }
    {
        if !self.more {
            return None;
        }
        let name = self.lexer.next().text;
        self.lexer.next();
        let value = ValueAt {
            lexer: self.lexer.copy(),
        };
        self.more = pass_value(&mut self.lexer);
        Some(FieldAt { name, value })
    }
}

/// The fields of a cell of slots.
pub fn fields_of<'a>(cell: &Lexer<'a>) -> FieldsAt<'a>
    ensures { (p : Place) (fs : Fields) → CellStands cell.now (slots p fs) → FieldsStand result fs }
{
    let mut lexer = cell.copy();
    lexer.next();
    FieldsAt { lexer, more: true }
}
