// The layouts of a program's structs.
ghost use Rattle.std.specs.Prelude.{◌≡◌, None, Some, IfOk, MatchOption};
ghost use Rattle.cg_ctree.specs.declared.tree.CTy.TheVariants as ty;
ghost use Rattle.cg_cmachine_def.specs.Layouts.{find_member, layout, members_of, pointed, walk};
ghost use Rattle.cg_cmachine_layout.specs.Kinds.{IsPart, layout_of, shape_layout};
ghost use Rattle.cg_cmachine_layout.specs.Counts.{IsCounted, IsOffset, counted_layout, struct_of};
ghost use Rattle.cg_cmachine_layout.specs.Tables.{IsMember};

use crate::circles::settle;
use crate::counted::{Counted, Offset};
use crate::index::{Names, find, index_structs};
use crate::kind::{Kind, Part};
use crate::shape::Shape;
use crate::sizes::{Row, kind_of, rows, sizes, struct_slots};
use cg_base::{Memory, Name};
use cg_ctree::{CStruct, CTy};
use std::alloc::Global;
use std::marker::Model;

/// The structs of a program, with what is looked up in them. Contracts see their list.
#[derive(Drop)]
pub struct Structs<'a> {
    structs: &'a [CStruct],
    names: Names<'a>,
    sizes: Vec<u32>,
    rows: Vec<Row<'a>>,
}

impl<'a> Model for Structs<'a> {
    ghost use Rattle.std.specs.Prelude.{List};
    ghost use Rattle.std.specs.Coded.{coded_list};
    ghost use Rattle.cg_ctree.specs.contracts.tree.CStruct as contract;
    ghost use Rattle.cg_ctree.specs.declared.tree.CStruct.{CStruct};
    ghost use Rattle.cg_cmachine_layout.specs.Tables.{IsTable};

    ghost Value = { List CStruct };

    ghost coded = { coded_list contract.the_row.coded };

    ghost view = { λ t. t.structs.now };

    ghost invariant = { λ t. IsTable t.structs.now t.names t.sizes.items t.rows.items };
}

impl<'a> Structs<'a> {
    /// The structs with their layouts, in time n log n where no struct holds itself. Want of memory is answered too where a
    /// declared struct has 2^32 slots or more.
    pub fn new(alloc: Global, structs: &'a [CStruct]) -> Result<Structs<'a>, Memory>
        ensures { IfOk result (λ table. table ≡ structs.now) }
    {
        let names = index_structs(alloc, structs)?;
        let settled = settle(alloc, &names, structs)?;
        let sizes = sizes(alloc, &names, &settled)?;
        let rows = rows(alloc, &names, sizes.as_slice(), settled.members.as_slice())?;
        Ok(Structs {
            structs,
            names,
            sizes,
            rows,
        })
    }

    /// A type, with its slots.
    fn counted(&self, ty: &'a CTy) -> Counted<'a>
        ensures layout { counted_layout self.now result ≡ layout self.now ty.now }
        ensures sized { IsCounted self.now result }
    {
        kind_of(&self.names, self.sizes.as_slice(), ty)
    }

    /// What a pointer to a struct points to.
    fn counted_struct(&self, name: &'a Name) -> Counted<'a>
        ensures layout { counted_layout self.now result ≡ pointed self.now name.now }
        ensures sized { IsCounted self.now result }
        ensures named { struct_of result ≡ Some name.now }
    {
        Counted::Struct(name, struct_slots(&self.names, self.sizes.as_slice(), name))
    }

    /// The part that members lead to; None exactly where they lead to none.
    fn offset(&self, kind: Counted<'a>, members: &[Name]) -> Option<Offset<'a>>
        requires sized { IsCounted self.now kind }
        ensures { MatchOption result (walk members.now (counted_layout self.now kind.entry) ≡ None) (λ p. IsOffset self.now members.now kind.entry p) }
    {
        // Every part stands within the whole, whose size bounds the sums below.
        let _size = kind.size();
        let mut part = Offset { start: 0, kind };
        for name in members {
            let Some(next) = self.member(part.kind, name) else {
                return None;
            };
            part = Offset {
                start: part.start + next.start,
                kind: next.kind,
            };
        }
        Some(part)
    }

    /// The first member of a name.
    fn member(&self, kind: Counted<'a>, name: &Name) -> Option<Offset<'a>>
        requires sized { IsCounted self.now kind }
        ensures { MatchOption result (find_member name.now (members_of (counted_layout self.now kind.entry)) ≡ None) (λ p. IsMember self.now name.now kind.entry p) }
    {
        let Counted::Struct(name_of_struct, _) = kind else {
            return None;
        };
        let Some(at) = find(&self.names, name_of_struct) else {
            return None;
        };
        let row = &self.rows[at as usize];
        let Some(place) = find(&row.names, name) else {
            return None;
        };
        Some(row.parts[place as usize])
    }

    /// The same type, by the shape of its struct.
    fn shaped(&self, counted: Counted<'a>) -> Kind<'a>
        requires counted { IsCounted self.now counted }
        ensures { layout_of result ≡ counted_layout self.now counted.entry }
    {
        match counted {
            Counted::Word(word) => Kind::Word(word),
            Counted::Pointer(name) => Kind::Pointer(name),
            Counted::Struct(name, size) => Kind::Struct(Shape {
                name,
                size,
                structs: self.structs,
            }),
        }
    }

    /// A type, with its slots.
    pub fn kind(&self, ty: &'a CTy) -> Kind<'a>
        ensures { layout_of result ≡ layout self.now ty.now }
    {
        self.shaped(self.counted(ty))
    }

    /// A struct, with its slots; one that isn't declared has none.
    pub fn shape(&self, name: &'a Name) -> Shape<'a>
        ensures { shape_layout result ≡ layout self.now (ty.Struct name.now) }
    {
        Shape {
            name,
            size: struct_slots(&self.names, self.sizes.as_slice(), name),
            structs: self.structs,
        }
    }

    /// The part of a value of a type that members lead to; None exactly where they lead to none.
    pub fn part(&self, ty: &'a CTy, members: &[Name]) -> Option<Part<'a>>
        ensures { MatchOption result (walk members.now (layout self.now ty.now) ≡ None) (IsPart members.now (layout self.now ty.now)) }
    {
        let offset = self.offset(self.counted(ty), members)?;
        Some(Part {
            start: offset.start,
            kind: self.shaped(offset.kind),
        })
    }

    /// The part of a struct that members lead to; None exactly where they lead to none.
    pub fn part_of(&self, name: &'a Name, members: &[Name]) -> Option<Part<'a>>
        ensures { MatchOption result (walk members.now (layout self.now (ty.Struct name.now)) ≡ None) (IsPart members.now (layout self.now (ty.Struct name.now))) }
    {
        let offset = self.offset(self.counted_struct(name), members)?;
        Some(Part {
            start: offset.start,
            kind: self.shaped(offset.kind),
        })
    }
}
