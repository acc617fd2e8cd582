// What lowering grows, and how.
#![tactic(auto, using(crate::proofs::Statements::statement_steps))]

ghost use Rattle.std.specs.Prelude.{◌≡◌, ◌++◌, [], ◌∷◌, IfOk, OnOk, map};
ghost use Rattle.cg_base.specs.Types.{type_of};
ghost use Rattle.cg_ctree.specs.declared.tree.CRhs.TheVariants.{Opnd};
ghost use Rattle.cg_ctree.specs.Trees.{assign as assign_of, stmt_of};
ghost use Rattle.cg_cgen_def.specs.Places.{local, operand, path as path_of};
ghost use Rattle.cg_lower_nodes.specs.Grown.{Adds, Begins, Binds, Ends, HasLocal, Sets, Unbinds};
ghost use Rattle.cg_lower_nodes.specs.Kept.{c_type_in};
ghost use Rattle.cg_cgen_lines.specs.Views.{step_of};
ghost use Rattle.cg_lower_nodes.specs.Views.{place_of};

use crate::place::Place;
use cg_base::{Items, Memory, Ty};
use cg_cgen_lines::{Base, Step, path};
use cg_ctree::{COpnd, CPath, CRhs, CStmt, CTy};
use cg_lower_tables::{Places, Structs};
use std::alloc::Global;
use std::mem;

/// The C of a body while its terms are lowered: where instances and arrow types stand, the structs, the types of its locals, its statements,
/// and where its variables are kept.
pub struct Lowering {
    pub places: Places,
    pub structs: Structs,
    pub locals: Items<CTy>,
    pub stmts: Items<CStmt>,
    pub scope: Vec<Place>,
}

impl Drop for Lowering {
    fn drop(self) {
        let Lowering {
            places,
            structs,
            locals,
            stmts,
            scope,
        } = self;
        drop(places);
        drop(structs);
        drop(locals);
        drop(stmts);
        drop(scope);
    }
}

/// Assigns to a part of a local.
pub fn assign(
    alloc: Global,
    stmts: &mut Items<CStmt>,
    to: usize,
    steps: &[Step],
    right: CRhs,
) -> Result<(), Memory>
    ensures { OnOk result (map stmt_of stmts.new ≡ map stmt_of stmts.old ++ assign_of (path_of (local to) (map step_of steps.now)) right ∷ []) }
{
    let target = path(alloc, Base::Local(to), steps)?;
    stmts.push(CStmt::Assign(target, right))
}

/// Moves statements behind others.
pub(crate) fn append(stmts: &mut Items<CStmt>, mut more: Items<CStmt>) -> Result<(), Memory>
    ensures { OnOk result (stmts.new ≡ stmts.old ++ more) }
{
    for stmt in more.as_mut_slice() {
        stmts.push(mem::replace(stmt, CStmt::Return(COpnd::Number(0))))?;
    }
    Ok(())
}

impl Lowering {
    /// One local more, of a type of C.
    pub(crate) fn with_local(&mut self, ty: CTy) -> Result<usize, Memory>
        ensures { IfOk result (λ at. HasLocal self.old self.new ty at) }
    {
        let at = self.locals.len();
        self.locals.push(ty)?;
        Ok(at)
    }

    /// One local more, of a type.
    pub fn fresh(&mut self, alloc: Global, ty: &Ty) -> Result<usize, Memory>
        ensures { IfOk result (λ at. HasLocal self.old self.new (c_type_in self.old (type_of ty.now)) at) }
    {
        let ty = self.structs.c_type(alloc, ty)?;
        self.with_local(ty)
    }

    /// One local more, of a type of C, which is assigned.
    pub(crate) fn set_c(&mut self, alloc: Global, ty: CTy, right: CRhs) -> Result<Place, Memory>
        ensures { IfOk result (λ place. Sets self.old self.new ty (λ j. assign_of (path_of (local j) []) right ∷ []) place) }
    {
        let at = self.with_local(ty)?;
        assign(alloc, &mut self.stmts, at, &[], right)?;
        Ok(Place::Held(Base::Local(at), Items::new(alloc)))
    }

    /// One local more, of a type, which is assigned.
    pub(crate) fn set(&mut self, alloc: Global, ty: &Ty, right: CRhs) -> Result<Place, Memory>
        ensures { IfOk result (λ place. Sets self.old self.new (c_type_in self.old (type_of ty.now)) (λ j. assign_of (path_of (local j) []) right ∷ []) place) }
    {
        let ty = self.structs.c_type(alloc, ty)?;
        self.set_c(alloc, ty, right)
    }

    /// The value stored at a path.
    pub(crate) fn store(&mut self, alloc: Global, to: CPath, value: &Place) -> Result<(), Memory>
        ensures { OnOk result (Adds self.old self.new (assign_of to (Opnd (operand (place_of value.now))) ∷ [])) }
    {
        let value = value.operand(alloc)?;
        self.stmts.push(CStmt::Assign(to, CRhs::Opnd(value)))
    }

    /// Statements of their own begin; those that are there are kept.
    pub fn begin(&mut self, alloc: Global) -> Items<CStmt>
        ensures { Begins self.old self.new result }
    {
        mem::replace(&mut self.stmts, Items::new(alloc))
    }

    /// The statements of their own, at whose end a local gets a value; those that were kept are there again.
    pub fn end(
        &mut self,
        alloc: Global,
        outer: Items<CStmt>,
        to: usize,
        value: Place,
    ) -> Result<Items<CStmt>, Memory>
        ensures { IfOk result (λ stmts. Ends self.old self.new outer to value stmts) }
    {
        let value = value.operand(alloc)?;
        assign(alloc, &mut self.stmts, to, &[], CRhs::Opnd(value))?;
        Ok(mem::replace(&mut self.stmts, outer))
    }

    /// One variable more.
    pub fn bind(&mut self, place: Place) -> Result<(), Memory>
        ensures { OnOk result (Binds self.old self.new (place ∷ [])) }
    {
        self.scope.push(place)?;
        Ok(())
    }

    /// So many variables alone.
    pub fn unbind(&mut self, depth: usize)
        ensures { Unbinds self.old self.new depth }
    {
        self.scope.truncate(depth);
    }
}
