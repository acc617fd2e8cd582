// The variables of a function.
#![tactic(auto)]

ghost use Rattle.std.specs.Prelude.{◌≡◌, ◌+◌, [], ◌∷◌, IfOk, OnOk};
ghost use Rattle.cg_cmachine_layout.specs.Kinds.{layout_of};
ghost use Rattle.cg_cmachine_resolve.specs.Queues.{HasPushed};
ghost use Rattle.cg_cmachine_resolve.specs.Scopes.{declared_as, locals_of, scope_of};
ghost use Rattle.cg_cmachine_resolve.specs.Variables.{AreAdded, IsScope, IsVariable};
ghost use Rattle.cg_cmachine_def.specs.Layouts.{layout, size};

use crate::index::{Names, add_name};
use cg_base::Memory;
use cg_cmachine_layout::{Kind, Structs};
use cg_ctree::{CDecl, CFun, CTy};
use std::alloc::Global;
use std::collections::BTreeMap;

/// A variable: the first of its slots in the frame, and its type.
#[derive(Clone, Copy)]
pub(crate) struct Variable<'a> {
    pub start: usize,
    pub ty: &'a CTy,
    pub kind: Kind<'a>,
}

/// The variables of a function, parameters and then locals; the place of the first of each name; and how many slots they have.
pub(crate) struct Variables<'a> {
    pub list: Vec<Variable<'a>>,
    pub names: Names<'a>,
    pub slots: usize,
}

impl<'a> Drop for Variables<'a> {
    fn drop(self) {
        let Variables {
            list,
            names,
            slots: _,
        } = self;
        drop(list);
        drop(names);
    }
}

impl<'a> Variables<'a> {
    /// The variables of a function.
    pub fn new(
        alloc: Global,
        structs: &Structs<'a>,
        function: &'a CFun,
    ) -> Result<Variables<'a>, Memory>
        ensures { IfOk result (IsScope structs.now (scope_of structs.now function.now)) }
    {
        let mut variables = Variables {
            list: Vec::new(alloc),
            names: BTreeMap::new(alloc),
            slots: 0,
        };
        variables.add_all(structs, function)?;
        Ok(variables)
    }

    /// Adds the parameters and locals of a function.
    fn add_all(&mut self, structs: &Structs<'a>, function: &'a CFun) -> Result<(), Memory>
        ensures { OnOk result (AreAdded structs.now (scope_of structs.now function.now) self.old self.new) }
    {
        self.add(structs, function.params.as_slice())?;
        match &function.body {
            None => Ok(()),
            Some(body) => self.add(structs, body.locals.as_slice()),
        }
    }

    /// Adds the variables of these declarations.
    fn add(&mut self, structs: &Structs<'a>, decls: &'a [CDecl]) -> Result<(), Memory>
        ensures { OnOk result (AreAdded structs.now (declared_as structs.now decls.now) self.old self.new) }
    {
        for decl in decls {
            self.declare(structs, decl)?;
        }
        Ok(())
    }

    /// Adds the variable of a declaration.
    fn declare(&mut self, structs: &Structs<'a>, decl: &'a CDecl) -> Result<(), Memory>
        ensures { OnOk result (AreAdded structs.now (declared_as structs.now (decl.now ∷ [])) self.old self.new) }
    {
        add_name(&mut self.names, decl.name.bytes(), self.list.len())?;
        self.push(structs, decl)
    }

    /// Adds the variable of a declaration to the list.
    fn push(&mut self, structs: &Structs<'a>, decl: &'a CDecl) -> Result<(), Memory>
        ensures names { OnOk result (self.new.names ≡ self.old.names) }
        ensures list { OnOk result (HasPushed (IsVariable structs.now self.old.slots (decl.now.name, layout structs.now decl.now.ty)) self.old.list.items self.new.list.items) }
        ensures slots { OnOk result (self.new.slots ≡ self.old.slots + size (layout structs.now decl.now.ty)) }
    {
        let kind = structs.kind(&decl.ty);
        let start = self.slots;
        self.slots = behind(start, kind)?;
        self.list.push(Variable {
            start,
            ty: &decl.ty,
            kind,
        })?;
        Ok(())
    }
}

/// The slot behind a value of a type that begins at a slot.
fn behind(start: usize, kind: Kind<'_>) -> Result<usize, Memory>
    ensures { IfOk result (λ slots. slots ≡ start + size (layout_of kind.entry)) }
{
    start.checked_add(kind.size() as usize).ok_or(Memory)
}
