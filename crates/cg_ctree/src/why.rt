// Why a run is stuck.

/// Why a run is stuck (docs/LANGUAGE.md, "The C subset"): a called function isn't there, or has no body; a scalar is unset; a cell is
/// absent (`NoCell`, also told of a null address that is read or written through, or that a built-in is handed for a cell); a divisor is 0;
/// a shift is too far; a switch has no case; a body ends without return; types don't agree. Operands are judged before functions are found.
#[derive(Clone, Copy, Debug, PartialEq, Eq)]
pub enum Why {
    NoFunction,
    NoBody,
    Unset,
    NoCell,
    ByZero,
    ShiftTooFar,
    NoCase,
    NoReturn,
    KindsDiffer,
}
