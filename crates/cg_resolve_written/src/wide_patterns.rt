// How wide patterns are.
#![tactic(auto, using(std::proofs::lemmas::Grind::common_steps, crate::proofs::PatternLists::pattern_lists))]

ghost use Rattle.std.specs.Prelude.{◌≡◌, map};
ghost use Rattle.cg_surface.specs.Patterns.{pattern_of, field_of, to_patterns, to_fields};
ghost use Rattle.cg_resolve_def.specs.Takes.{widest_pattern, widest_patterns, widest_fields};

use cg_base::Items;
use cg_surface::{FPat, Pat, PatForm};

/// The most components of one tuple in a pattern (docs/LANGUAGE.md, "Limits"). It takes no memory.
#[cycle(widest)]
pub(crate) fn widest_pattern(pattern: &Pat) -> usize
    ensures { result ≡ widest_pattern (pattern_of pattern.now) }
{
    match &pattern.form {
        PatForm::Name(_name) => 0,
        PatForm::Any => 0,
        PatForm::Unit => 0,
        PatForm::Paren(pattern) => widest_pattern(pattern),
        PatForm::Tuple(patterns) => patterns.len().max(widest_patterns(patterns)),
        PatForm::Fields(fields) => widest_fields(fields),
        PatForm::Take(_name, fields) => widest_fields(fields),
    }
}

// The same in patterns.
#[cycle(widest)]
fn widest_patterns(patterns: &Items<Pat>) -> usize
    ensures { result ≡ widest_patterns (to_patterns (map pattern_of patterns.now)) }
{
    let mut most = 0;
    for pattern in patterns.as_slice() {
        most = most.max(widest_pattern(pattern));
    }
    most
}

// The same in the patterns of fields.
#[cycle(widest)]
fn widest_fields(fields: &Items<FPat>) -> usize
    ensures { result ≡ widest_fields (to_fields (map field_of fields.now)) }
{
    let mut most = 0;
    for field in fields.as_slice() {
        most = most.max(widest_pattern(&field.pat));
    }
    most
}
