// The kernel body of a definition.
#![tactic(auto, using(std::proofs::lemmas::Grind::common_steps, crate::proofs::BodySteps::body_err), unfolding(cg_resolve_nodes::specs::Names::entries_in, cg_resolve_nodes::specs::Names::vars_in, cg_resolve_nodes::specs::Names::AreNames))]

ghost use Rattle.cg_resolve_declared.specs.Declarations.{IsIndexed, entries_of};
ghost use Rattle.cg_resolve_declared.specs.Tables.{texts};
ghost use Rattle.cg_resolve_def.specs.Expand.{bodies};
ghost use Rattle.cg_resolve_def.specs.Terms.{body_term, inner_place};
ghost use Rattle.cg_surface.specs.Exprs.{expr_of};
ghost use Rattle.cg_surface.specs.Patterns.{pattern_of};
ghost use Rattle.cg_resolve_expand.specs.Known.{AreBodies};
ghost use Rattle.cg_resolve_terms.specs.Answers.{BodySays};

use crate::terms::payload;
use cg_core::KBody;
use cg_resolve_declared::{Declarations, Definition};
use cg_resolve_expand::Synonyms;
use cg_resolve_nodes::Names;
use cg_resolve_sites::{TermFault, inner_place};
use std::alloc::Global;

/// The kernel body of a definition, where its term is at most 512 deep (docs/LANGUAGE.md, "Desugaring" and "Limits"). It answers
/// that the term is too deep exactly where it is; want of memory is its one other refusal.
pub fn body(
    alloc: Global,
    declared: &Declarations<'_>,
    synonyms: &Synonyms<'_>,
    vars: &[&[u8]],
    definition: &Definition<'_>,
) -> Result<KBody, TermFault>
    requires declared { IsIndexed declared.now }
    requires synonyms { AreBodies (entries_of declared.now) synonyms.now }
    ensures { BodySays (body_term (entries_of declared.now) (bodies (entries_of declared.now)) (texts vars.now) (pattern_of definition.now.param.now) (expr_of definition.now.body.now)) (inner_place (pattern_of definition.now.param.now)) result }
{
    let names = Names {
        declared,
        synonyms,
        vars,
    };
    let term = payload(alloc, &names, &[], 0, definition.body, definition.param)?;
    Ok(KBody {
        param: inner_place(definition.param),
        term,
    })
}
