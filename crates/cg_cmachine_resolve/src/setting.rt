// What names of a function's body are resolved with, and where its paths lead.
#![tactic(auto)]

ghost use Rattle.std.specs.Prelude.{◌≡◌, ◌+◌, ◌≤◌, true, false, IfOk};
ghost use Rattle.cg_cmachine_resolve.specs.Lines.{Calls, IsRight, Leads, Means, MeanAll};
ghost use Rattle.cg_cmachine_resolve.specs.Scopes.{scope_of};
ghost use Rattle.cg_cmachine_resolve.specs.Variables.{IsFirst, IsScope, scope_at, structs_at};
ghost use Rattle.cg_ctree.specs.declared.tree.CRhs.TheVariants as rhs;
ghost use Rattle.cg_cmachine_values.specs.declared.place.Place.TheVariants.{Local};

use crate::index::place_of;
use crate::names::Named;
use crate::scope::{Variable, Variables};
use crate::{Callee, Right};
use cg_base::{Memory, Name};
use cg_cmachine_layout::{Kind, Part, Structs};
use cg_cmachine_values::{Operand, Place};
use cg_ctree::{CFun, COpnd, CPath, CRhs};
use std::alloc::Global;
use std::marker::Model;

/// What names of a function's body are resolved with. Contracts see the function, and the program with its links.
#[derive(Drop)]
pub(crate) struct Setting<'i, 'a> {
    named: &'i Named<'a>,
    structs: &'i Structs<'a>,
    function: &'a CFun,
    variables: &'i Variables<'a>,
}

impl<'i, 'a> Model for Setting<'i, 'a> {
    ghost use Rattle.std.specs.Coded.{codes};
    ghost use Rattle.cg_ctree.specs.contracts.tree.CStmt as statement;
    ghost use Rattle.cg_cmachine_resolve.specs.Variables.{IsSite, Site};

    ghost Value = { Site };

    ghost coded = { Prim.hlevel (codes, statement.the_row.coded) };

    ghost view = { λ s. record { whole = s.named.now; function = s.function.now } };

    ghost invariant = { λ s. IsSite s.named.now s.structs.now s.function.now s.variables.now };
}

impl<'i, 'a> Setting<'i, 'a> {
    /// What names of a function's body are resolved with.
    pub fn new(
        named: &'i Named<'a>,
        structs: &'i Structs<'a>,
        function: &'a CFun,
        variables: &'i Variables<'a>,
    ) -> Setting<'i, 'a>
        requires program { structs.now ≡ named.now.program.structs }
        requires scope { IsScope structs.now (scope_of structs.now function.now) variables.now }
        ensures { result ≡ record { whole = named.now; function = function.now } }
    {
        Setting {
            named,
            structs,
            function,
            variables,
        }
    }

    /// Where a path leads.
    pub fn place(&self, path: &'a CPath) -> Place<'a>
        ensures { Leads (structs_at self.now) (scope_at self.now) path.now result }
    {
        let Some(at) = place_of(&self.variables.names, &path.base) else {
            return Place::Nowhere;
        };
        let variable = &self.variables.list[at];
        if path.arrow {
            self.behind(variable, path)
        } else {
            self.within(variable, path)
        }
    }

    /// Where a path of a variable leads with an arrow.
    fn behind(&self, variable: &Variable<'a>, path: &'a CPath) -> Place<'a>
        requires variable { IsFirst (structs_at self.now) path.now.base (scope_at self.now) variable.now }
        requires arrow { path.now.arrow ≡ true }
        ensures { Leads (structs_at self.now) (scope_at self.now) path.now result }
    {
        let Kind::Pointer(name) = variable.kind else {
            return Place::Nowhere;
        };
        let part = self.structs.part_of(name, path.members.as_slice());
        Place::Behind(variable.start, part)
    }

    /// Where a path of a variable leads without an arrow.
    fn within(&self, variable: &Variable<'a>, path: &'a CPath) -> Place<'a>
        requires variable { IsFirst (structs_at self.now) path.now.base (scope_at self.now) variable.now }
        requires plain { path.now.arrow ≡ false }
        ensures { Leads (structs_at self.now) (scope_at self.now) path.now result }
    {
        match self.structs.part(variable.ty, path.members.as_slice()) {
            None => Place::Nowhere,
            Some(part) => local(variable.start, part, self.variables.slots),
        }
    }

    /// What an operand is.
    pub fn operand(&self, operand: &'a COpnd) -> Operand<'a>
        ensures { Means (structs_at self.now) (scope_at self.now) operand.now result }
    {
        match operand {
            COpnd::Number(number) => Operand::Number(*number),
            COpnd::Path(path) => Operand::Place(self.place(path)),
        }
    }

    /// What operands are.
    pub fn operands(&self, alloc: Global, list: &'a [COpnd]) -> Result<Vec<Operand<'a>>, Memory>
        ensures { IfOk result (λ operands. MeanAll (structs_at self.now) (scope_at self.now) list.now operands.items) }
    {
        let mut operands = Vec::new(alloc);
        for item in list {
            operands.push(self.operand(item))?;
        }
        Ok(operands)
    }

    /// What a call of a name is.
    pub fn callee(&self, name: &Name) -> Callee<'a>
        ensures { Calls self.now.whole name.now result }
    {
        self.named.callee(name)
    }

    /// What stands on the right of an assignment.
    pub fn right(&self, alloc: Global, right: &'a CRhs) -> Result<Right<'a>, Memory>
        ensures { IfOk result (IsRight self.now.whole (scope_at self.now) right.now) }
    {
        match right {
            CRhs::Opnd(operand) => Ok(Right::Operand(self.operand(operand))),
            CRhs::Conv(word, operand) => Ok(Right::Convert(*word, self.operand(operand))),
            CRhs::Binary(outer, inner, op, left, right) => Ok(Right::Binary(
                *outer,
                *inner,
                *op,
                self.operand(left),
                self.operand(right),
            )),
            CRhs::Flip(outer, inner, operand) => Ok(Right::Flip(
                *outer,
                *inner,
                self.operand(operand),
            )),
            CRhs::IsNull(operand) => Ok(Right::IsNull(self.operand(operand))),
            CRhs::Call(name, list) => self.call(alloc, name, list.as_slice()),
            CRhs::New(operand, name) => Ok(Right::New(
                self.operand(operand),
                name,
                self.structs.shape(name),
            )),
        }
    }

    /// A call whose value is assigned.
    fn call(&self, alloc: Global, name: &Name, list: &'a [COpnd]) -> Result<Right<'a>, Memory>
        ensures { IfOk result (IsRight self.now.whole (scope_at self.now) (rhs.Call name.now list.now)) }
    {
        let operands = self.operands(alloc, list)?;
        Ok(Right::Call(self.callee(name), operands))
    }
}

/// A part of a variable that begins at a slot, in a frame of so many.
fn local<'a>(start: usize, part: Part<'a>, slots: usize) -> Place<'a>
    requires within { start + part.start ≤ slots }
    ensures { result ≡ Local (start + part.entry.start) part.entry.kind }
{
    Place::Local(start + part.start as usize, part.kind)
}
