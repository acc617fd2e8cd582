// Places and operands, with all names resolved.
use cg_cmachine_layout::{Kind, Part};

/// Where a path leads.
#[derive(Clone, Copy)]
pub enum Place<'a> {
    /// To nothing that is declared.
    Nowhere,
    /// To a part of a variable: the first of its slots in the frame, and its type.
    Local(usize, Kind<'a>),
    /// To a part of the cell whose address is in this slot of the frame; to nothing in it where its struct has no such member.
    Behind(usize, Option<Part<'a>>),
}

/// An operand.
#[derive(Clone, Copy)]
pub enum Operand<'a> {
    Number(u64),
    Place(Place<'a>),
}
