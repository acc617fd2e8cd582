// One symbol more of an expression.
ghost use Rattle.std.specs.Prelude.{◌≡◌, IfOk};
ghost use Rattle.cg_parser_exprs_def.specs.Machine as machine;
ghost use Rattle.cg_parser_symbols.specs.Views.{symbol_view};
ghost use Rattle.cg_parser_build.specs.Bounded.{bounded};
ghost use Rattle.cg_parser_exprs_def.specs.Held.{types, patterns};
ghost use Rattle.cg_parser_exprs_frames.specs.Stack.{stack_of, stage_of};

use crate::behind::{after_bang, after_lower, after_upper, have, observed};
use cg_base::{Memory, Place};
use cg_parser_exprs_bars::alternatives::{after_con, want_alt, want_arrow};
use cg_parser_exprs_ends::fields::{after_dot, after_field, want_field};
use cg_parser_exprs_frames::frame::{Frame, Mode};
use cg_parser_exprs_frames::readers::Parts;
use cg_parser_exprs_inside::inside::{in_alt_pattern, in_args, in_pattern, in_sig};
use cg_parser_exprs_start::operands::after_angle;
use cg_parser_exprs_start::start::start;
use cg_parser_stack::Stack;
use cg_parser_symbols::Symbol;
use std::alloc::Global;

/// One symbol more.
pub(crate) fn mode_step<'a>(
    alloc: Global,
    stack: &mut Stack<Frame>,
    parts: &mut Parts,
    mode: Mode,
    symbol: Symbol<'a>,
    place: Place,
) -> Result<Mode, Memory>
    ensures { IfOk result (λ m. stage_of m parts.new (stack_of stack.new) ≡ machine.mode_step types patterns bounded (stage_of mode parts.old (stack_of stack.old)) (symbol_view symbol.entry) place) }
{
    match mode {
        Mode::Want => start(alloc, stack, parts, symbol, place),
        Mode::Have(tree) => have(alloc, stack, parts, symbol, place, tree),
        Mode::AfterLower(head, name) => after_lower(alloc, stack, parts, symbol, place, head, name),
        Mode::AfterUpper(head, name) => after_upper(alloc, stack, parts, symbol, place, head, name),
        Mode::InArgs(head, name, args) => in_args(alloc, parts, symbol, place, head, name, args),
        Mode::InSig(head, tree) => in_sig(alloc, parts, symbol, place, head, tree),
        Mode::AfterDot(tree) => after_dot(alloc, symbol, place, tree),
        Mode::WantField(owner, fields) => want_field(alloc, symbol, place, owner, fields),
        Mode::AfterField(owner, fields, at) => after_field(alloc, stack, symbol, owner, fields, at),
        Mode::InPattern(head, binds) => in_pattern(alloc, stack, parts, symbol, place, head, binds),
        Mode::AfterAngle(angle, sign, tree) => after_angle(
            alloc, stack, parts, symbol, place, angle, sign, tree,
        ),
        Mode::AfterBang(tree, seen) => after_bang(alloc, symbol, place, tree, seen),
        Mode::Observed(tree, seen) => observed(alloc, stack, parts, symbol, place, tree, seen),
        Mode::WantAlt(before) => want_alt(alloc, symbol, place, before),
        Mode::AfterCon(before, head, con) => after_con(
            alloc, stack, parts, symbol, place, before, head, con,
        ),
        Mode::InAltPattern(before, head, con) => in_alt_pattern(
            alloc, stack, parts, symbol, place, before, head, con,
        ),
        Mode::WantArrow(before, head, pattern) => want_arrow(stack, symbol, before, head, pattern),
        Mode::Stuck => Ok(Mode::Stuck),
        Mode::WrongBar => Ok(Mode::WrongBar),
    }
}
