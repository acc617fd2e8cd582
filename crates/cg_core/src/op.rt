// Operators.

/// An operator. `Complement` and `Not` have one operand, all others two (docs/LANGUAGE.md, "Operators").
#[derive(Clone, Copy, Debug, PartialEq, Eq)]
pub enum Op {
    Add,
    Sub,
    Mul,
    Div,
    Rem,
    And,
    Or,
    Xor,
    Shl,
    Shr,
    Complement,
    Eq,
    Ne,
    Lt,
    Gt,
    Le,
    Ge,
    Both,
    Either,
    Not,
}
