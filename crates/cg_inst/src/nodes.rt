// The nodes of a core, in reading order.
#![tactic(auto)]

ghost use Rattle.std.specs.Prelude.{◌≡◌, ◌∷◌, [], List, map, IfOk, MatchOption};
ghost use Rattle.cg_core.specs.Kernels.{the_core};
ghost use Rattle.cg_base.specs.Types.{Tau};
ghost use Rattle.cg_core.specs.Terms.{arg_of};
ghost use Rattle.cg_kinds.specs.Kinds.{subst};
ghost use Rattle.cg_typing.specs.Functions.{arg_types};
ghost use Rattle.cg_inst.specs.Judged.{core_in};
ghost use Rattle.cg_inst.specs.Lists.{core_of, nodes_maybe};
ghost use Rattle.cg_typing.specs.Instances.{mentioned_at};

use cg_base::{Fun, Items, Memory};
use cg_core::{Form, Term, TyArg, Typed};
use cg_typing::{Checked, nodes_in};
use std::alloc::Global;

/// The nodes of a function's body in reading order; none, where it has no body.
pub(crate) fn body_nodes<'a>(
    alloc: Global,
    checked: &'a Checked,
    fun: Fun,
) -> Result<Vec<&'a Term<Typed>>, Memory>
    ensures { IfOk result (λ nodes. map (λ node. the_core node.now) nodes.items ≡ nodes_maybe (core_of (core_in checked.now) fun)) }
{
    match fun {
        Fun::User(at) => match checked.core(at) {
            Some(core) => nodes_in(alloc, core),
            None => Ok(Vec::new(alloc)),
        },
        Fun::Lib(_) => Ok(Vec::new(alloc)),
    }
}

/// The function that a node mentions and its type arguments, if it mentions one.
pub(crate) fn mention_in<'a>(node: &'a Term<Typed>) -> Option<(Fun, &'a Items<TyArg>)>
    ensures { MatchOption result ((types : List Tau) → mentioned_at types (the_core node.now) ≡ [])
        (λ m. (types : List Tau) → mentioned_at types (the_core node.now) ≡ record { fun = m.0; types = map (subst types) (arg_types (map arg_of m.1.now)) } ∷ []) }
{
    match &node.form {
        Form::Fun(fun, args) => Some((*fun, args)),
        Form::Var(_)
        | Form::Unit
        | Form::Bool(_)
        | Form::Lit(_)
        | Form::Op(_, _)
        | Form::App(_, _)
        | Form::Let(_, _, _)
        | Form::LetBang(_, _, _, _)
        | Form::If(_, _, _)
        | Form::Con(_, _)
        | Form::Case(_, _, _, _, _)
        | Form::Esac(_, _)
        | Form::Struct(_)
        | Form::Member(_, _)
        | Form::Take(_, _, _, _, _)
        | Form::Put(_, _, _)
        | Form::Cast(_)
        | Form::Annot(_, _) => None,
    }
}
