// What stands for types, and the structs of types.
#![tactic(auto, unfolding(crate::specs::Plain::plain, crate::specs::Added::added, cg_lower_def::specs::Structs::IsCovered), using(crate::proofs::Visits::visit_steps))]

ghost use Rattle.std.specs.Prelude.{◌≡◌, ◌≤◌, length, map, slice_get, true, false, IfOk, OnOk, IsTrue, Some};
ghost use Rattle.cg_base.specs.declared.kind.Sigil.TheVariants.{U as unboxed};
ghost use Rattle.cg_base.specs.Types.{fields, part_of, to_parts, type_of, variant, word as word_of, Tau, Parts};
ghost use Rattle.cg_inst_types.specs.Places.{Keeps, type_at};
ghost use Rattle.cg_lower_def.specs.CTypes.{form};
ghost use Rattle.cg_lower_def.specs.Structs.{AreCovered, HasBelow, IsCovered, is_in};
ghost use Rattle.cg_lower_tables.specs.Added.{added, added_parts, with_struct};
ghost use Rattle.cg_lower_tables.specs.Plain.{host_plain, plain};
ghost use Rattle.cg_lower_tables.specs.Tables.{AreMembers, IsFor, IsMember, IsPlainAt};

use crate::host::{find_host, type_for};
use crate::{Host, Kind, Member, Row, Shape, Structs};
use cg_base::{Items, Memory, Part, Sigil, Ty, Word};
use std::alloc::Global;

// The most members of a struct.
const WIDEST: usize = 4_294_967_296;

impl Structs {
    // What stands for a word.
    fn word(&mut self, alloc: Global, word: Word) -> Result<Member, Memory>
        ensures member { IfOk result (λ m. (t : Tau) → plain t ≡ word_of word → IsMember self.new.types m t) }
        ensures types { Keeps self.old.types self.new.types }
        ensures table { self.new.table ≡ self.old.table }
    {
        let at = self.enter(alloc, &Ty::Word(word), &[])?;
        Ok(Member {
            at,
            shape: Shape::Word(word),
        })
    }

    // What stands for an abstract type.
    fn host(&mut self, alloc: Global, host: Host) -> Result<Member, Memory>
        ensures member { IfOk result (λ m. (t : Tau) → plain t ≡ host_plain host → IsMember self.new.types m t) }
        ensures types { Keeps self.old.types self.new.types }
        ensures table { self.new.table ≡ self.old.table }
    {
        let ty = type_for(alloc, host)?;
        let entered = self.enter(alloc, &ty, &[]);
        drop(ty);
        let at = entered?;
        Ok(Member {
            at,
            shape: Shape::Abstract(host),
        })
    }

    // What stands for a record whose parts these stand for, where the unboxed one has a place already.
    fn record(
        &mut self,
        alloc: Global,
        at: u32,
        sigil: Sigil,
        members: &[Member],
    ) -> Result<Member, Memory>
        requires { length members.now ≤ 4294967296 }
        ensures member { IfOk result (λ m. (ps : Parts) → AreMembers self.old.types members.now ps → slice_get self.old.types at ≡ Some (plain (fields ps unboxed)) → IsMember self.new.types m (fields ps sigil)) }
        ensures types { Keeps self.old.types self.new.types }
        ensures table { self.new.table ≡ self.old.table }
    {
        match sigil {
            Sigil::U => Ok(Member {
                at,
                shape: Shape::Struct,
            }),
            _ => Ok(Member {
                at: self.layer(alloc, Kind::Boxed, members)?,
                shape: Shape::Pointer(at),
            }),
        }
    }

    // One more struct, if it is to be added and isn't there.
    fn keep_if(&mut self, adds: bool, at: u32, row: Row) -> Result<(), Memory>
        requires plain { IsPlainAt self.old.types at }
        requires for_type { IsFor self.old.types row (type_at self.old.types at) }
        requires below { IsTrue adds → HasBelow self.old.table (length self.old.table) (type_at self.old.types at) }
        ensures held { OnOk result (IsTrue adds → is_in self.new.table (form (type_at self.old.types at)) ≡ true) }
        ensures grown { OnOk result (IsTrue adds → self.new.table ≡ with_struct self.old.table (type_at self.old.types at)) }
        ensures kept { Keeps self.old.table self.new.table }
        ensures types { self.new.types ≡ self.old.types }
        ensures unchanged { adds ≡ false → self.new.table ≡ self.old.table }
    {
        if adds {
            return self.keep(at, row);
        }
        drop(row);
        Ok(())
    }

    // What stands for a type, whose structs are added if they are to be.
    #[cycle(visit)]
    pub(crate) fn visit(&mut self, alloc: Global, ty: &Ty, adds: bool) -> Result<Member, Memory>
        ensures member { IfOk result (λ m. IsMember self.new.types m (type_of ty.now)) }
        ensures covered { IfOk result (λ m. IsTrue adds → IsCovered self.new.table (type_of ty.now)) }
        ensures grown { IfOk result (λ m. IsTrue adds → self.new.table ≡ added (type_of ty.now) self.old.table) }
        ensures types { Keeps self.old.types self.new.types }
        ensures kept { Keeps self.old.table self.new.table }
        ensures unchanged { adds ≡ false → self.new.table ≡ self.old.table }
    {
        match ty {
            Ty::Var(_) => self.word(alloc, Word::U8),
            Ty::Seen(_) => self.word(alloc, Word::U8),
            Ty::Unit => self.word(alloc, Word::U8),
            Ty::Word(word) => self.word(alloc, *word),
            Ty::Bool => self.word(alloc, Word::U8),
            Ty::Arrow(_, _) => self.word(alloc, Word::U32),
            Ty::Abs(name, args, _) => self.host(alloc, find_host(name, args)),
            Ty::Variant(parts) => self.visit_variant(alloc, parts, adds),
            Ty::Fields(parts, sigil) => self.visit_record(alloc, parts, *sigil, adds),
        }
    }

    // What stands for the types of parts.
    #[cycle(visit)]
    fn visit_parts(
        &mut self,
        alloc: Global,
        parts: &Items<Part>,
        adds: bool,
    ) -> Result<Items<Member>, Memory>
        ensures members { IfOk result (λ ms. AreMembers self.new.types ms (to_parts (map part_of parts.now))) }
        ensures covered { IfOk result (λ ms. IsTrue adds → AreCovered self.new.table (to_parts (map part_of parts.now))) }
        ensures grown { IfOk result (λ ms. IsTrue adds → self.new.table ≡ added_parts (to_parts (map part_of parts.now)) self.old.table) }
        ensures few { IfOk result (λ ms. length ms ≤ 4294967296) }
        ensures types { Keeps self.old.types self.new.types }
        ensures kept { Keeps self.old.table self.new.table }
        ensures unchanged { adds ≡ false → self.new.table ≡ self.old.table }
    {
        let mut members = Items::new(alloc);
        if parts.len() > WIDEST {
            drop(members);
            return Err(Memory);
        }
        for part in parts.as_slice() {
            members.push(self.visit(alloc, &part.ty, adds)?)?;
        }
        Ok(members)
    }

    // What stands for a variant.
    #[cycle(visit)]
    fn visit_variant(
        &mut self,
        alloc: Global,
        parts: &Items<Part>,
        adds: bool,
    ) -> Result<Member, Memory>
        ensures member { IfOk result (λ m. IsMember self.new.types m (variant (to_parts (map part_of parts.now)))) }
        ensures covered { IfOk result (λ m. IsTrue adds → IsCovered self.new.table (variant (to_parts (map part_of parts.now)))) }
        ensures grown { IfOk result (λ m. IsTrue adds → self.new.table ≡ added (variant (to_parts (map part_of parts.now))) self.old.table) }
        ensures types { Keeps self.old.types self.new.types }
        ensures kept { Keeps self.old.table self.new.table }
        ensures unchanged { adds ≡ false → self.new.table ≡ self.old.table }
    {
        let members = self.visit_parts(alloc, parts, adds)?;
        let at = self.layer(alloc, Kind::Variant, members.as_slice())?;
        let row = Row {
            is_variant: true,
            members,
        };
        self.keep_if(adds, at, row)?;
        Ok(Member {
            at,
            shape: Shape::Struct,
        })
    }

    // What stands for a record.
    #[cycle(visit)]
    fn visit_record(
        &mut self,
        alloc: Global,
        parts: &Items<Part>,
        sigil: Sigil,
        adds: bool,
    ) -> Result<Member, Memory>
        ensures member { IfOk result (λ m. IsMember self.new.types m (fields (to_parts (map part_of parts.now)) sigil)) }
        ensures covered { IfOk result (λ m. IsTrue adds → IsCovered self.new.table (fields (to_parts (map part_of parts.now)) sigil)) }
        ensures grown { IfOk result (λ m. IsTrue adds → self.new.table ≡ added (fields (to_parts (map part_of parts.now)) sigil) self.old.table) }
        ensures types { Keeps self.old.types self.new.types }
        ensures kept { Keeps self.old.table self.new.table }
        ensures unchanged { adds ≡ false → self.new.table ≡ self.old.table }
    {
        let members = self.visit_parts(alloc, parts, adds)?;
        let at = self.layer(alloc, Kind::Unboxed, members.as_slice())?;
        let member = self.record(alloc, at, sigil, members.as_slice())?;
        let row = Row {
            is_variant: false,
            members,
        };
        self.keep_if(adds, at, row)?;
        Ok(member)
    }
}
