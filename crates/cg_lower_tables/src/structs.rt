// Tables of structs.
ghost use Rattle.std.specs.Prelude.{◌≡◌, ◌≤◌, [], ◌∷◌, ◌++◌, true, false, length, map, slice_get, IfOk, OnOk, Some};
ghost use Rattle.cg_base.specs.Types.{type_of};
ghost use Rattle.cg_kinds.specs.Kinds.{subst};
ghost use Rattle.cg_inst_types.specs.Places.{Keeps, type_at};
ghost use Rattle.cg_lower_def.specs.CTypes.{form};
ghost use Rattle.cg_lower_def.specs.Structs.{HasBelow, IsTable, is_in, numbered_in};
ghost use Rattle.cg_lower_tables.specs.Added.{with_struct};
ghost use Rattle.cg_lower_tables.specs.Tables.{IsFor, IsPlainAt, struct_at};

use crate::Row;
use cg_base::{Memory, Ty};
use cg_cgen_lines::numbered;
use cg_ctree::CStruct;
use cg_inst_types::TypeTable;
use indexmap::IndexMap;
use std::alloc::Global;
use std::marker::Model;

// The most structs of a table.
const MOST: usize = 4_294_967_296;

/// The structs of a C program, each by a type that it is for (docs/LANGUAGE.md, "The C of instances"). Contracts see their types as
/// `table`: the struct of a number is for the type at this place, and stands behind those that are its members (`is_table`).
pub struct Structs {
    types: TypeTable,
    rows: IndexMap<u32, Row>,
}

impl Drop for Structs {
    fn drop(self) {
        let Structs { types, rows } = self;
        drop(types);
        drop(rows);
    }
}

impl Model for Structs {
    ghost use Rattle.std.specs.Coded.{codes};
    ghost use Rattle.cg_inst_types.specs.Codes.{coded_type};
    ghost use Rattle.cg_lower_tables.specs.Tables.{IsSound, Known, known_of};

    ghost Value = { Known };

    ghost coded = { Prim.hlevel (codes, coded_type (Prim.hlevel codes)) };

    ghost view = { λ s. known_of s.types s.rows.entries };

    ghost invariant = { λ s. IsSound s.types s.rows.entries };
}

impl Structs {
    /// No structs (docs/LANGUAGE.md, "The C of instances"). It takes no memory.
    pub fn new(alloc: Global) -> Structs
        ensures { result.table ≡ [] }
    {
        Structs {
            types: TypeTable::new(alloc),
            rows: IndexMap::new(alloc),
        }
    }

    /// Each struct stands behind those that are its members, and there are at most 2^32 (docs/LANGUAGE.md, "The C of instances"). A law: it
    /// takes no memory and does nothing.
    pub fn is_table(&self)
        ensures { IsTable self.now.table }
    {
        let _rows = &self.rows;
    }

    /// How many structs there are (docs/LANGUAGE.md, "The C of instances").
    pub fn len(&self) -> usize
        ensures { result ≡ length self.now.table }
    {
        self.rows.len()
    }

    // The place of a type with the types at `args` for its type variables.
    pub(crate) fn enter(&mut self, alloc: Global, ty: &Ty, args: &[u32]) -> Result<u32, Memory>
        ensures place { IfOk result (λ at. slice_get self.new.types at ≡ Some (subst (map (type_at self.old.types) args.now) (type_of ty.now))) }
        ensures kept { Keeps self.old.types self.new.types }
        ensures table { self.new.table ≡ self.old.table }
    {
        self.types.enter(alloc, ty, args)
    }

    // The number of the struct for the type at a place, or how many there are where there is none for it.
    pub(crate) fn number(&self, at: u32) -> usize
        requires { IsPlainAt self.now.types at }
        ensures { result ≡ numbered_in self.now.table (form (type_at self.now.types at)) }
    {
        self.types.stands_once();
        match self.rows.get_index_of(&at) {
            Some(number) => number,
            None => self.rows.len(),
        }
    }

    // Whether there is a struct for the type at a place.
    fn has(&self, at: u32) -> bool
        requires { IsPlainAt self.now.types at }
        ensures yes { result ≡ true → is_in self.now.table (form (type_at self.now.types at)) ≡ true }
        ensures no { result ≡ false → length self.now.table ≤ numbered_in self.now.table (form (type_at self.now.types at)) }
    {
        self.number(at) < self.len()
    }

    // One more struct, that for the type at a place, if there is none for it.
    pub(crate) fn keep(&mut self, at: u32, row: Row) -> Result<(), Memory>
        requires plain { IsPlainAt self.old.types at }
        requires for_type { IsFor self.old.types row (type_at self.old.types at) }
        requires below { HasBelow self.old.table (length self.old.table) (type_at self.old.types at) }
        ensures held { OnOk result (is_in self.new.table (form (type_at self.old.types at)) ≡ true) }
        ensures kept { Keeps self.old.table self.new.table }
        ensures types { self.new.types ≡ self.old.types }
        ensures grown { OnOk result (self.new.table ≡ with_struct self.old.table (type_at self.old.types at)) }
    {
        if self.has(at) {
            drop(row);
            return Ok(());
        }
        self.push(at, row)
    }

    // One more struct, that for the type at a place, where there is none for it.
    fn push(&mut self, at: u32, row: Row) -> Result<(), Memory>
        requires plain { IsPlainAt self.old.types at }
        requires for_type { IsFor self.old.types row (type_at self.old.types at) }
        requires below { HasBelow self.old.table (length self.old.table) (type_at self.old.types at) }
        requires absent { length self.old.table ≤ numbered_in self.old.table (form (type_at self.old.types at)) }
        ensures held { OnOk result (is_in self.new.table (form (type_at self.old.types at)) ≡ true) }
        ensures kept { Keeps self.old.table self.new.table }
        ensures types { self.new.types ≡ self.old.types }
        ensures grown { OnOk result (self.new.table ≡ self.old.table ++ type_at self.old.types at ∷ []) }
    {
        self.types.stands_once();
        if self.rows.len() >= MOST {
            drop(row);
            return Err(Memory);
        }
        self.rows.insert(at, row)?;
        Ok(())
    }

    // The declaration of the struct of a number.
    pub(crate) fn declaration(&self, alloc: Global, number: usize) -> Result<CStruct, Memory>
        ensures { IfOk result (λ s. s ≡ struct_at self.now.table number) }
    {
        match self.rows.get_index(number) {
            Some((_, row)) => Ok(CStruct {
                members: self.members(alloc, row)?,
                name: numbered(alloc, b's', number)?,
            }),
            None => Err(Memory),
        }
    }
}
