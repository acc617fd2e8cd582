// What a `let!` observes.
#![tactic(auto)]

ghost use Rattle.std.specs.Prelude.{◌≡◌, ◌||◌, IfOk, map};
ghost use Rattle.cg_check_context.specs.Observed.{see, with_flags};
ghost use Rattle.cg_check_pieces.specs.View.{is_seen_at as is_seen_at_of};
ghost use Rattle.cg_check_context.specs.View.{Entry, entries_of};
ghost use Rattle.cg_check_uses.specs.Uses as tables;

use crate::source::Known;
use cg_base::{Memory, Place};
use cg_check_pieces::is_seen_at;
use std::alloc::Global;

/// Which variables are observed. Want of memory is its one refusal.
#[inline(never)]
pub fn flags_of(alloc: Global, context: &[Known]) -> Result<Vec<bool>, Memory>
    ensures { IfOk result (λ flags. flags.items ≡ map (λ (k : Known). k.observed) context.now) }
{
    let flags = context.iter().map(|known| known.observed);
    Ok(flags.collect(alloc)?)
}

// Whether the variable at a position is among those that a `let!` observes, or was observed before.
fn or_before(seen: &Vec<Option<Place>>, at: usize, observed: bool) -> bool
    ensures { result ≡ (is_seen_at_of seen.now.items at || observed) }
{
    is_seen_at(seen, at) || observed
}

// A flag; none past the end is raised.
#[tactic(auto, using(crate::proofs::TestSteps::test_steps))]
fn flag_at(flags: &Vec<bool>, at: usize) -> bool
    ensures { result ≡ tables.flag_at flags.now.items at }
{
    at < flags.len() && flags[at]
}

/// A `let!` observes some variables.
pub fn observe(context: &mut Vec<Known>, seen: &Vec<Option<Place>>)
    ensures { entries_of context.new.items ≡ see seen.now.items (entries_of context.old.items) }
{
    for i in 0..context.len() {
        let observed = or_before(seen, i, context[i].observed);
        context[i].observed = observed;
    }
}

/// Just these are observed.
pub fn restore(context: &mut Vec<Known>, flags: &Vec<bool>)
    ensures { entries_of context.new.items ≡ with_flags flags.now.items (entries_of context.old.items) }
{
    for i in 0..context.len() {
        let observed = flag_at(flags, i);
        context[i].observed = observed;
    }
}
