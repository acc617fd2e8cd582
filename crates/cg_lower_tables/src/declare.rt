// Types as C has them, and declarations of structs.
#![tactic(auto, using(crate::proofs::Declared::declared_steps))]

ghost use Rattle.std.specs.Prelude.{◌≡◌, ◌++◌, ◌∷◌, zero, false, length, IfOk, OnOk};
ghost use Rattle.cg_base.specs.declared.kind.Word.TheVariants.{U32};
ghost use Rattle.cg_base.specs.Types.{type_of, Parts, Tau};
ghost use Rattle.cg_ctree.specs.declared.tree.CTy.TheVariants as ty;
ghost use Rattle.cg_inst_types.specs.Places.{Keeps};
ghost use Rattle.cg_cgen_def.specs.Names.{declared, tag_name};
ghost use Rattle.cg_lower_def.specs.CTypes.{c_type as c_type_of};
ghost use Rattle.cg_lower_def.specs.Structs.{IsCovered, numbered_in, struct_members, structs_in};
ghost use Rattle.cg_lower_tables.specs.Added.{added};
ghost use Rattle.cg_lower_tables.specs.Tables.{AreMembers, declared_from, IsFor, IsPlainAt, PointsTo, shown as shown_as};

use crate::host::struct_of;
use crate::{Member, Row, Shape, Structs};
use cg_base::{Items, Memory, Name, Ty, Word};
use cg_cgen_lines::numbered;
use cg_ctree::{CDecl, CStruct, CTy};
use std::alloc::Global;

impl Structs {
    /// Adds the structs of a type and of all types in it, each behind those that are its members, where there are none
    /// (docs/LANGUAGE.md, "The C of instances"). Those that are there keep their numbers. The one error is want of memory, also where a
    /// struct would have more than 2^32 members or there would be more than 2^32 structs; those that were added before it stay.
    pub fn add(&mut self, alloc: Global, ty: &Ty) -> Result<(), Memory>
        ensures table { OnOk result (self.new.table ≡ added (type_of ty.now) self.old.table) }
        ensures covered { OnOk result (IsCovered self.new.table (type_of ty.now)) }
        ensures kept { Keeps self.old.table self.new.table }
    {
        self.visit(alloc, ty, true)?;
        Ok(())
    }

    /// A type as C has it (docs/LANGUAGE.md, "The C of instances"): that of a program with these structs, where those of the type are among
    /// them. The one error is want of memory, also where a part of the type has more than 2^32 parts. No struct is added.
    pub fn c_type(&mut self, alloc: Global, ty: &Ty) -> Result<CTy, Memory>
        ensures c_type { IfOk result (λ c. c ≡ c_type_of (numbered_in self.new.table) (type_of ty.now)) }
        ensures table { self.new.table ≡ self.old.table }
    {
        let member = self.visit(alloc, ty, false)?;
        self.shown(alloc, member)
    }

    /// The declarations of the structs, in order (docs/LANGUAGE.md, "The C of instances"). The one error is want of memory.
    pub fn declarations(&self, alloc: Global) -> Result<Items<CStruct>, Memory>
        ensures { IfOk result (λ structs. structs ≡ structs_in self.now.table) }
    {
        let mut structs = Items::new(alloc);
        for number in 0..self.len() {
            structs.push(self.declaration(alloc, number)?)?;
        }
        Ok(structs)
    }

    // A type as C has it, of what stands for it.
    fn shown(&self, alloc: Global, member: Member) -> Result<CTy, Memory>
        requires at { IsPlainAt self.now.types member.at }
        requires to { PointsTo self.now.types member.shape }
        ensures { IfOk result (λ c. c ≡ shown_as self.now.types (numbered_in self.now.table) member.at member.shape) }
    {
        match member.shape {
            Shape::Word(word) => Ok(CTy::Word(word)),
            Shape::Abstract(host) => Ok(CTy::Pointer(struct_of(alloc, host)?)),
            Shape::Struct => { Ok(CTy::Struct(numbered(alloc, b's', self.number(member.at))?)) }
            Shape::Pointer(to) => Ok(CTy::Pointer(numbered(alloc, b's', self.number(to))?)),
        }
    }

    // Adds the members of a letter that these stand for.
    fn declare(
        &self,
        alloc: Global,
        letter: u8,
        members: &[Member],
        decls: &mut Items<CDecl>,
    ) -> Result<(), Memory>
        requires { (ps : Parts) × AreMembers self.now.types members.now ps }
        ensures { OnOk result (decls.new ≡ decls.old ++ declared_from self.now.types (numbered_in self.now.table) letter zero members.now) }
    {
        for i in 0..members.len() {
            let ty = self.shown(alloc, members[i])?;
            let name = numbered(alloc, letter, i)?;
            decls.push(CDecl { ty, name })?;
        }
        Ok(())
    }

    // The members of the struct of a variant.
    fn variant_members(&self, alloc: Global, members: &[Member]) -> Result<Items<CDecl>, Memory>
        requires { (ps : Parts) × AreMembers self.now.types members.now ps }
        ensures { IfOk result (λ decls. decls ≡ declared (ty.Word U32) tag_name ∷ declared_from self.now.types (numbered_in self.now.table) 97 zero members.now) }
    {
        let mut decls = Items::new(alloc);
        let name = Name::new(alloc, b"t")?;
        decls.push(CDecl {
            ty: CTy::Word(Word::U32),
            name,
        })?;
        self.declare(alloc, b'a', members, &mut decls)?;
        Ok(decls)
    }

    // The members of the struct of a record.
    fn record_members(&self, alloc: Global, members: &[Member]) -> Result<Items<CDecl>, Memory>
        requires { (ps : Parts) × AreMembers self.now.types members.now ps }
        ensures { IfOk result (λ decls. decls ≡ declared_from self.now.types (numbered_in self.now.table) 109 zero members.now) }
    {
        let mut decls = Items::new(alloc);
        self.declare(alloc, b'm', members, &mut decls)?;
        Ok(decls)
    }

    // The members of a struct.
    pub(crate) fn members(&self, alloc: Global, row: &Row) -> Result<Items<CDecl>, Memory>
        requires { (t : Tau) × IsFor self.now.types row.now t }
        ensures { IfOk result (λ decls. (t : Tau) → IsFor self.now.types row.now t → decls ≡ struct_members self.now.table t) }
    {
        let members = row.members.as_slice();
        if row.is_variant {
            return self.variant_members(alloc, members);
        }
        self.record_members(alloc, members)
    }
}
