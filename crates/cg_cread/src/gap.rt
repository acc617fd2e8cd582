// Reading what stands between the blocks of a statement, one symbol at a time.
ghost use Rattle.std.specs.Prelude.{◌≡◌, IfOk, map};
ghost use Rattle.std.specs.Option.{option_map};
ghost use Rattle.cg_ctree.specs.Trees.{stmt_of, case_of};
ghost use Rattle.cg_cread_parts.specs.Views.{symbol_view};
ghost use Rattle.cg_cread.specs.Blocks as machine;
ghost use Rattle.cg_cread.specs.Views.{arms_of, opened_of, gap_of};

use crate::block::{Arms, Opened};
use cg_base::{Items, Memory};
use cg_cread_parts::{Keyword, Symbol};
use cg_ctree::{CCase, COpnd, CStmt};

/// Where between blocks the reader stands: behind the first part of an `if` or behind `else`; in a `switch` before a case, behind
/// `case`, its number or the `:`; behind a case's block, or behind its `break`; or where nothing goes on.
pub(crate) enum Gap {
    BehindYes(COpnd, Items<CStmt>),
    BehindElse(COpnd, Items<CStmt>),
    CaseWanted(Arms),
    CaseRead(Arms),
    Tagged(Arms, u64),
    ColonRead(Arms, u64),
    CaseClosed(Arms, CCase),
    BreakRead(Arms, CCase),
    Stuck,
}

impl Drop for Gap {
    fn drop(self) {
        match self {
            Gap::BehindYes(operand, stmts) | Gap::BehindElse(operand, stmts) => {
                drop(operand);
                drop(stmts);
            }
            Gap::CaseWanted(arms)
            | Gap::CaseRead(arms)
            | Gap::Tagged(arms, _)
            | Gap::ColonRead(arms, _) => drop(arms),
            Gap::CaseClosed(arms, case) | Gap::BreakRead(arms, case) => {
                drop(arms);
                drop(case);
            }
            Gap::Stuck => (),
        }
    }
}

// Behind the first part of an `if`.
fn behind_yes<'a>(operand: COpnd, stmts: Items<CStmt>, symbol: Symbol<'a>) -> Gap
    ensures { gap_of result ≡ machine.on_yes operand (map stmt_of stmts) (symbol_view symbol.entry) }
{
    match symbol {
        Symbol::Key(Keyword::Else) => Gap::BehindElse(operand, stmts),
        _ => Gap::Stuck,
    }
}

// Before a case.
fn case_wanted<'a>(arms: Arms, symbol: Symbol<'a>) -> Gap
    ensures { gap_of result ≡ machine.on_wanted (arms_of arms) (symbol_view symbol.entry) }
{
    match symbol {
        Symbol::Key(Keyword::Case) => Gap::CaseRead(arms),
        _ => Gap::Stuck,
    }
}

// Behind `case`.
fn case_read<'a>(arms: Arms, symbol: Symbol<'a>) -> Gap
    ensures { gap_of result ≡ machine.on_case (arms_of arms) (symbol_view symbol.entry) }
{
    match symbol {
        Symbol::Count(tag) => Gap::Tagged(arms, tag),
        _ => Gap::Stuck,
    }
}

// Behind the number of a case.
fn tagged<'a>(arms: Arms, tag: u64, symbol: Symbol<'a>) -> Gap
    ensures { gap_of result ≡ machine.on_tag (arms_of arms) tag (symbol_view symbol.entry) }
{
    match symbol {
        Symbol::Colon => Gap::ColonRead(arms, tag),
        _ => Gap::Stuck,
    }
}

// Behind the block of a case.
fn case_closed<'a>(arms: Arms, case: CCase, symbol: Symbol<'a>) -> Gap
    ensures { gap_of result ≡ machine.on_closed (arms_of arms) (case_of case) (symbol_view symbol.entry) }
{
    match symbol {
        Symbol::Key(Keyword::Break) => Gap::BreakRead(arms, case),
        _ => Gap::Stuck,
    }
}

// Behind `break`.
fn break_read<'a>(mut arms: Arms, case: CCase, symbol: Symbol<'a>) -> Result<Gap, Memory>
    ensures { IfOk result (λ gap. gap_of gap ≡ machine.on_break (arms_of arms) (case_of case) (symbol_view symbol.entry)) }
{
    match symbol {
        Symbol::Semicolon => {
            let pushed = arms.cases.push(case);
            pushed.and(Ok(Gap::CaseWanted(arms)))
        }
        _ => Ok(Gap::Stuck),
    }
}

impl Gap {
    /// One symbol more between blocks, without a `{` that opens one or the `}` behind the last.
    pub(crate) fn step<'a>(self, symbol: Symbol<'a>) -> Result<Gap, Memory>
        ensures { IfOk result (λ gap. gap_of gap ≡ machine.gap_step (gap_of self) (symbol_view symbol.entry)) }
    {
        match self {
            Gap::BehindYes(operand, stmts) => Ok(behind_yes(operand, stmts, symbol)),
            Gap::CaseWanted(arms) => Ok(case_wanted(arms, symbol)),
            Gap::CaseRead(arms) => Ok(case_read(arms, symbol)),
            Gap::Tagged(arms, tag) => Ok(tagged(arms, tag, symbol)),
            Gap::CaseClosed(arms, case) => Ok(case_closed(arms, case, symbol)),
            Gap::BreakRead(arms, case) => break_read(arms, case, symbol),
            Gap::BehindElse(_, _) | Gap::ColonRead(_, _) | Gap::Stuck => Ok(Gap::Stuck),
        }
    }

    /// What a `{` opens there, where it opens something.
    pub(crate) fn opens(self) -> Option<Opened>
        ensures { option_map opened_of result ≡ machine.gap_opens (gap_of self) }
    {
        match self {
            Gap::BehindElse(operand, stmts) => Some(Opened::No(operand, stmts)),
            Gap::ColonRead(arms, tag) => Some(Opened::Case(arms, tag)),
            _ => None,
        }
    }

    /// The statement that a `}` ends there, where it ends one.
    pub(crate) fn end(self) -> Option<CStmt>
        ensures { option_map stmt_of result ≡ machine.gap_end (gap_of self) }
    {
        match self {
            Gap::CaseWanted(arms) => arms.statement(),
            _ => None,
        }
    }

    /// Whether a statement may still come of it.
    pub(crate) fn is_open(&self) -> bool
        ensures { result ≡ machine.gap_is_open (gap_of self.now) }
    {
        !matches!(self, Gap::Stuck)
    }
}
