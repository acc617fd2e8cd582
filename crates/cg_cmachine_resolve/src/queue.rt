// The blocks of a body that are still to be resolved, behind those that are.
#![tactic(auto)]

ghost use Rattle.std.specs.Prelude.{◌≡◌, ◌++◌, [], ◌∷◌, length, map, IfOk, OnOk};
ghost use Rattle.cg_cmachine_resolve.specs.Lines.{AreCases, Whole};
ghost use Rattle.cg_cmachine_resolve.specs.Scopes.{Scope};
ghost use Rattle.cg_cmachine_resolve.specs.Queues.{HaveJoined, cases_weight, waiting};
ghost use Rattle.cg_ctree.specs.Trees.{case_of, to_cases};

use cg_base::Memory;
use cg_ctree::{CCase, CStmt};
use std::alloc::Global;

/// Blocks of statements.
pub(crate) type Queue<'a> = Vec<&'a [CStmt]>;

/// A block joins those that are to be resolved: its number.
pub(crate) fn enqueue<'a>(queue: &mut Queue<'a>, block: &'a [CStmt]) -> Result<usize, Memory>
    ensures number { IfOk result (λ number. number ≡ length queue.old.items) }
    ensures joins { OnOk result (waiting queue.new.items ≡ waiting queue.old.items ++ block.now ∷ []) }
{
    let number = queue.len();
    queue.push(block)?;
    Ok(number)
}

/// The blocks of a switch's cases join: each case's number, with that of its block.
pub(crate) fn enqueue_cases<'a>(
    alloc: Global,
    queue: &mut Queue<'a>,
    arms: &'a [CCase],
) -> Result<Vec<(u64, usize)>, Memory>
    ensures cases { IfOk result (λ cases. (w : Whole) (vs : Scope) → AreCases w vs (waiting queue.new.items) arms.now cases.items) }
    ensures joins { OnOk result (HaveJoined (cases_weight (to_cases (map case_of arms.now))) (waiting queue.old.items) (waiting queue.new.items)) }
{
    let mut cases = Vec::new(alloc);
    for arm in arms {
        let block = enqueue(queue, arm.body.as_slice())?;
        cases.push((arm.tag, block))?;
    }
    Ok(cases)
}
