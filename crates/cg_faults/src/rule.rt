// The rules.
ghost use Rattle.std.specs.Prelude.{◌≡◌};
ghost use Rattle.cg_faults.specs.Rule.{text_of};

/// A rule of kinds (K) or of types (T) that a source may break (docs/LANGUAGE.md, "Typing").
#[derive(Clone, Copy, Debug, PartialEq, Eq)]
pub enum Rule {
    K1,
    K2,
    K3,
    K4,
    K5,
    K6,
    K7,
    T1,
    T2,
    T3,
    T4,
    T5,
    T6,
    T7,
    T8,
    T9,
    T10,
    T11,
    T12,
    T13,
    T14,
}

impl Rule {
    /// What is printed behind the rule's name (docs/FAULTS.md).
    pub fn text(self) -> &'static str
        ensures { result.now ≡ text_of self }
    {
        match self {
            Rule::K1 => "type argument lacks a kind",
            Rule::K2 => "observed value would escape",
            Rule::K3 => "unused value cannot be dropped",
            Rule::K4 => "value cannot be shared",
            Rule::K5 => "value used in one branch only",
            Rule::K6 => "member of a value that cannot be shared",
            Rule::K7 => "put over a field that cannot be dropped",
            Rule::T1 => "types differ",
            Rule::T2 => "type annotation needed",
            Rule::T3 => "literal out of range",
            Rule::T4 => "not a function",
            Rule::T5 => "no such field",
            Rule::T6 => "field is taken",
            Rule::T7 => "value is read-only",
            Rule::T8 => "no such alternative",
            Rule::T9 => "alternatives are left",
            Rule::T10 => "alternative already handled",
            Rule::T11 => "upcast to a narrower type",
            Rule::T12 => "operator on no word",
            Rule::T13 => "writable record type needed",
            Rule::T14 => "array element is no word",
        }
    }
}
