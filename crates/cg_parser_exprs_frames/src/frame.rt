// What is open where an expression is read. What is too deep is none.
ghost use Rattle.std.specs.Prelude.{◌≡◌, IfOk};
ghost use Rattle.cg_parser_build.specs.Bounded.{bounded};
ghost use Rattle.cg_parser_exprs_def.specs.Machine as machine;
ghost use Rattle.cg_parser_exprs_def.specs.Held.{types, patterns};
ghost use Rattle.cg_parser_exprs_frames.specs.Stack.{owner_of, open_of};
ghost use Rattle.cg_parser_build.specs.Views.{view_of, fields_view, alts_view, pattern_view};

use cg_base::{Items, Memory, Name, Place};
use cg_core::{At, Op};
use cg_parser_build::{
    BuiltAlts, BuiltArgs, BuiltBinds, BuiltExpr, BuiltExprs, BuiltFields, build, choices, lists,
};
use cg_parser_patterns::BuiltPattern;
use std::alloc::Global;

/// What the fields in braces belong to: a record, or a put of an expression.
pub enum Owner {
    Record(Place),
    Put(Option<BuiltExpr>),
}

impl Drop for Owner {
    fn drop(self) {
        match self {
            Owner::Record(_) => {}
            Owner::Put(tree) => drop(tree),
        }
    }
}

impl Owner {
    /// The fields of a record, or of a put.
    pub fn owned(
        self,
        alloc: Global,
        fields: Option<BuiltFields>,
    ) -> Result<Option<BuiltExpr>, Memory>
        ensures { IfOk result (λ e. view_of e ≡ machine.owned types patterns bounded (owner_of self) (fields_view fields)) }
    {
        match self {
            Owner::Record(place) => Ok(build::fields(place, fields)),
            Owner::Put(tree) => build::put(alloc, tree, fields),
        }
    }
}

/// An operator with one operand.
#[derive(Clone, Copy)]
pub enum Prefix {
    Operation(Op),
    Upcast,
}

/// A sign that may be the first of a shift.
#[derive(Clone, Copy)]
pub enum Angle {
    ToLeft,
    ToRight,
}

/// An open match: its subject with what is observed, the alternatives before, and the column of its first bar.
pub struct Open {
    pub subject: Option<BuiltExpr>,
    pub seen: Items<At>,
    pub before: Option<BuiltAlts>,
    pub column: u32,
}

impl Drop for Open {
    fn drop(self) {
        let Open {
            subject,
            seen,
            before,
            column: _,
        } = self;
        drop(subject);
        drop(seen);
        drop(before);
    }
}

impl Open {
    /// With one alternative more.
    pub fn with_alt(
        self,
        place: Place,
        con: Option<Name>,
        pattern: Option<BuiltPattern>,
        tree: Option<BuiltExpr>,
    ) -> Result<Open, Memory>
        ensures { IfOk result (λ o. open_of o ≡ record { subject = view_of self.subject; seen = self.seen; before = bounded.and_alt (alts_view self.before) place con (pattern_view pattern) (view_of tree); column = self.column }) }
    {
        let Open {
            subject,
            seen,
            before,
            column,
        } = self;
        let before = lists::and_alt(before, place, con, pattern, tree)?;
        Ok(Open {
            subject,
            seen,
            before,
            column,
        })
    }

    /// A match with its last alternative.
    pub fn matched(
        self,
        alloc: Global,
        place: Place,
        con: Option<Name>,
        pattern: Option<BuiltPattern>,
        tree: Option<BuiltExpr>,
    ) -> Result<Option<BuiltExpr>, Memory>
        ensures { IfOk result (λ e. view_of e ≡ bounded.match_of (view_of self.subject) self.seen (bounded.and_alt (alts_view self.before) place con (pattern_view pattern) (view_of tree))) }
    {
        let Open {
            subject,
            seen,
            before,
            column: _,
        } = self;
        let alts = lists::and_alt(before, place, con, pattern, tree)?;
        choices::match_of(alloc, subject, seen, alts)
    }
}

/// What is open in an expression: a parenthesis; a tuple, with the expressions before; a field, with what it belongs to and those
/// before; a call that waits for an argument; a constructor that waits for what it holds; an operator with one operand; one with
/// its left operand; a binding, with those before and its pattern; a `let` for its body; a condition; a `then`; an `else`; and an
/// alternative's body.
#[derive(Drop)]
pub enum Frame {
    InParen(Place),
    InTuple(Place, Option<BuiltExprs>),
    InField(Owner, Option<BuiltFields>, At),
    Argument(Option<BuiltExpr>),
    Payload(Place, Name),
    Operand(Place, Prefix),
    RightOf(Place, Op, Option<BuiltExpr>),
    Bound(Place, Option<BuiltBinds>, Option<BuiltPattern>),
    Body(Place, Option<BuiltBinds>),
    Condition(Place),
    Then(Place, Option<BuiltExpr>, Items<At>),
    Else(Place, Option<BuiltExpr>, Items<At>, Option<BuiltExpr>),
    Branch(Open, Place, Option<Name>, Option<BuiltPattern>),
}

impl Default for Frame {
    fn default() -> Frame {
        Frame::InParen(Place { line: 0, column: 0 })
    }
}

/// Where in an expression the reader stands: docs/LANGUAGE.md, "Expressions". The types and patterns that it stands in are with
/// readers of their own.
#[derive(Drop)]
pub enum Mode {
    Want,
    Have(Option<BuiltExpr>),
    AfterLower(Place, Name),
    AfterUpper(Place, Name),
    InArgs(Place, Name, Option<BuiltArgs>),
    InSig(Place, Option<BuiltExpr>),
    AfterDot(Option<BuiltExpr>),
    WantField(Owner, Option<BuiltFields>),
    AfterField(Owner, Option<BuiltFields>, At),
    InPattern(Place, Option<BuiltBinds>),
    AfterAngle(Angle, Place, Option<BuiltExpr>),
    AfterBang(Option<BuiltExpr>, Items<At>),
    Observed(Option<BuiltExpr>, Items<At>),
    WantAlt(Open),
    AfterCon(Open, Place, Name),
    InAltPattern(Open, Place, Name),
    WantArrow(Open, Place, Option<BuiltPattern>),
    Stuck,
    WrongBar,
}
