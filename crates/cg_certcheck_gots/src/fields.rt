// What the fields of a record come to, and the record by them (`specs/Records.antt`).
#![tactic(auto, using(cg_check_pieces::proofs::FieldSteps::field_steps))]

ghost use Rattle.std.specs.Prelude.{◌≡◌, IfOk, Ok, map};
ghost use Rattle.cg_base.specs.declared.kind.Sigil.TheVariants.{U};
ghost use Rattle.cg_base.specs.Types.{fields as record_of, part_of, to_parts, type_of};
ghost use Rattle.cg_certcheck_gots.specs.Gots.{fields_in, got_in};
ghost use Rattle.cg_check_pieces.specs.Fields.{cores_back, parts_back, trees_back};
ghost use Rattle.cg_certcheck_gots.specs.Records as forms;
ghost use Rattle.cg_certcheck_context.specs.View.{Agrees, cursor_of};
ghost use Rattle.cg_core.specs.declared.derivation.Node.TheVariants as nodes;
ghost use Rattle.cg_core.specs.Derivations.{derivation, derivation_of, to_derivations};
ghost use Rattle.cg_core.specs.Kernels.{the_core_field};
ghost use Rattle.cg_core.specs.Terms.{to_named};
ghost use Rattle.cg_certcheck_def.specs.Pass.{in_front as in_front_of, no_fields as no_fields_at};

use crate::got::{End, Got, copied_marks, finished, made};
use cg_base::{Items, Memory, Name, Part, Place, Sigil, Ty};
use cg_cert::CertFault;
use cg_certcheck_context::{Cursor, Source};
use cg_check_pieces::{add_core, add_part, add_tree, copied, turned};
use cg_core::{Deriv, FieldTerm, Form, Mark, Node, Term, Typed};
use std::alloc::Global;

/// What the fields of a record come to, the last one first: their types by name, their cores, and their derivations; and where the pass
/// stands behind the last of them.
pub struct Fields {
    pub parts: Items<Part>,
    pub cores: Items<FieldTerm<Typed>>,
    pub trees: Items<Deriv>,
    pub at: Cursor,
}

impl Drop for Fields {
    fn drop(self) {
        let Fields {
            parts,
            cores,
            trees,
            at: _,
        } = self;
        drop(parts);
        drop(cores);
        drop(trees);
    }
}

// Equal mark strings.
fn copied_strings(alloc: Global, strings: &[Items<Mark>]) -> Result<Items<Items<Mark>>, Memory>
    ensures { IfOk result (λ list. list ≡ strings.now) }
{
    let mut list = Items::new(alloc);
    for string in strings {
        list.push(copied_marks(alloc, string.as_slice())?)?;
    }
    Ok(list)
}

impl Fields {
    // In the order of the fields: their types, their cores, and their derivations.
    fn apart(self) -> (Items<Part>, Items<FieldTerm<Typed>>, Items<Deriv>)
        ensures parts { to_parts (map part_of result.0) ≡ parts_back self.parts }
        ensures cores { to_named (map the_core_field result.1) ≡ cores_back self.cores }
        ensures trees { to_derivations (map derivation_of result.2) ≡ trees_back self.trees }
    {
        let Fields {
            parts,
            cores,
            trees,
            at: _,
        } = self;
        (turned(parts), turned(cores), turned(trees))
    }
}

// Puts a field in front of the later ones. Want of memory is its one refusal.
fn put_in_front(source: &Source, name: &Name, got: Got, later: &mut Fields) -> Result<(), Memory>
    ensures { IfOk result (λ _. fields_in source.now.nodes.now later.new ≡ in_front_of name.now (got_in source.now.nodes.now got) (fields_in source.now.nodes.now later.old)) }
{
    add_part(source.alloc, name, got.ty(), &mut later.parts)?;
    let (core, tree) = got.apart();
    add_core(source.alloc, name, core, &mut later.cores)?;
    add_tree(tree, &mut later.trees)
}

/// A field in front of the later ones. Want of memory is its one refusal.
#[inline(never)]
pub fn in_front(source: &Source, name: &Name, got: Got, later: Fields) -> Result<Fields, CertFault>
    ensures { Agrees (fields_in source.now.nodes.now) result (Ok (in_front_of name.now (got_in source.now.nodes.now got) (fields_in source.now.nodes.now later))) }
{
    let mut later = later;
    put_in_front(source, name, got, &mut later)?;
    Ok(later)
}

/// What no fields come to, where the pass stands here. It takes no memory.
#[tactic(auto, using(cg_check_pieces::proofs::FieldSteps::none_steps))]
pub fn no_fields(source: &Source, at: Cursor) -> Fields
    ensures { fields_in source.now.nodes.now result ≡ no_fields_at (cursor_of source.now.nodes.now at) }
{
    Fields {
        parts: Items::new(source.alloc),
        cores: Items::new(source.alloc),
        trees: Items::new(source.alloc),
        at,
    }
}

// A record's derivation, and where the pass stands behind it.
fn record_end(
    alloc: Global,
    strings: &[Items<Mark>],
    parts: Items<Deriv>,
    at: Cursor,
) -> Result<End, Memory>
    ensures tree { IfOk result (λ end. derivation_of end.tree ≡ derivation nodes.Struct strings.now (to_derivations (map derivation_of parts))) }
    ensures at { IfOk result (λ end. end.at ≡ at) }
{
    let marks = copied_strings(alloc, strings)?;
    let node = Node::Struct;
    let tree = Deriv { node, marks, parts };
    Ok(End { tree, at })
}

/// A record of this type, with the mark strings that the certificate lists between its fields. Want of memory is its one refusal.
#[inline(never)]
pub fn struct_node(
    source: &Source,
    strings: &[Items<Mark>],
    place: Place,
    ty: &Ty,
    fields: Fields,
) -> Result<Got, CertFault>
    ensures { Agrees (got_in source.now.nodes.now) result (Ok (forms.struct_node strings.now place (type_of ty.now) (fields_in source.now.nodes.now fields))) }
{
    let ty = copied(source.alloc, ty)?;
    let at = fields.at;
    let (_, cores, trees) = fields.apart();
    let end = record_end(source.alloc, strings, trees, at)?;
    made(source, place, ty, Form::Struct(cores), end)
}

/// The same of the type that its fields make. Want of memory is its one refusal.
#[inline(never)]
pub fn record_node(
    source: &Source,
    strings: &[Items<Mark>],
    place: Place,
    fields: Fields,
) -> Result<Got, CertFault>
    ensures { Agrees (got_in source.now.nodes.now) result (Ok (forms.struct_node strings.now place (record_of (fields_in source.now.nodes.now fields).parts U) (fields_in source.now.nodes.now fields))) }
{
    let at = fields.at;
    let (parts, cores, trees) = fields.apart();
    let end = record_end(source.alloc, strings, trees, at)?;
    let ty = Ty::Fields(parts, Sigil::U);
    let note = Typed { place, ty };
    let form = Form::Struct(cores);
    finished(source, Term { note, form }, end)
}
