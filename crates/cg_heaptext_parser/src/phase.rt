// Where in a heap file the reader stands.
ghost use Rattle.std.specs.Prelude.{◌≡◌};
ghost use Rattle.cg_heaptext_parser.specs.Outline as outline;

/// What is open round a value: a constructor that waits for its payload, a parenthesis, or an unboxed record.
#[derive(Clone, Copy, PartialEq, Eq)]
pub enum Open {
    Payload,
    Paren,
    Record,
}

impl Default for Open {
    fn default() -> Open {
        Open::Paren
    }
}

/// Where in a list of numbers or answers: at its beginning, behind a comma, or behind an item.
#[derive(Clone, Copy, PartialEq, Eq)]
pub enum Item {
    Fresh,
    Again,
    Behind,
}

/// Before an entry or `arg`; in an entry up to its cell; in a cell up to a value of it; behind `arg`; before a value, in one or behind one;
/// or where nothing goes on.
#[derive(Clone, Copy, PartialEq, Eq)]
pub enum Phase {
    Between,
    AfterSign,
    AfterAddress,
    BeforeCell,
    CellName,
    CellEquals,
    Elements(Item),
    Answers(Item),
    ArgumentEquals,
    Want,
    AfterParen,
    AfterConstructor,
    ValueSign,
    FieldName,
    FieldEquals,
    Have,
    Failed,
}

impl Phase {
    /// Whether a heap file may still come of it.
    pub(crate) fn is_open(self) -> bool
        ensures { result ≡ outline.is_open self }
    {
        !matches!(self, Phase::Failed)
    }
}
