// What the fields of a record come to.
ghost use Rattle.std.specs.Prelude.{◌≡◌, ◌∷◌, [], IfOk, Ok, cond, length, map, reverse};
ghost use Rattle.cg_base.specs.declared.kind.Sigil.TheVariants.{U};
ghost use Rattle.cg_base.specs.Types.{fields as record_of, part_of, to_parts, type_of};
ghost use Rattle.cg_core.specs.declared.derivation.Node.TheVariants as nodes;
ghost use Rattle.cg_core.specs.Derivations.{derivation, derivation_of};
ghost use Rattle.cg_core.specs.Kernels.{the_core_field, the_field};
ghost use Rattle.cg_core.specs.Terms.{to_named};
ghost use Rattle.cg_check_nodes.specs.Fields.{fields_of, nothing, with_uses};
ghost use Rattle.cg_check_nodes.specs.Nodes as forms;
ghost use Rattle.cg_check_context.specs.View.{Agrees, entries_of, types_in};
ghost use Rattle.cg_check_nodes.specs.Gots.{got_of};
ghost use Rattle.cg_check_def.specs.Pass.{in_front as in_front_of, is_end};
ghost use Rattle.cg_check_uses.specs.Marks as splits;

use crate::got::{Got, finished, made};
use cg_base::{Items, Memory, Name, Part, Place, Sigil, Ty};
use cg_check_context::{Known, Stop};
use cg_check_pieces::{add_core, add_part, add_tree, copied, turned};
use cg_check_uses::{Use, join, marks_of_uses, no_uses};
use cg_core::{Deriv, FieldTerm, Form, Mark, Node, Term, Typed};
use std::alloc::Global;

/// What the fields of a record come to, the last one first: their types by name, their cores, the marks between each and the later
/// ones, their derivations, and what they do with each variable of their context.
pub struct Fields {
    pub parts: Items<Part>,
    pub cores: Items<FieldTerm<Typed>>,
    pub strings: Items<Items<Mark>>,
    pub trees: Items<Deriv>,
    pub uses: Vec<Use>,
}

impl Drop for Fields {
    fn drop(self) {
        let Fields {
            parts,
            cores,
            strings,
            trees,
            uses,
        } = self;
        drop(parts);
        drop(cores);
        drop(strings);
        drop(trees);
        drop(uses);
    }
}

impl Fields {
    // In the order of the fields: their types, their cores, and the record's derivation; and its uses.
    fn apart(self) -> (Items<Part>, Items<FieldTerm<Typed>>, Deriv, Vec<Use>)
        ensures parts { to_parts (map part_of result.0) ≡ (fields_of self).parts }
        ensures cores { to_named (map the_core_field result.1) ≡ (fields_of self).cores }
        ensures tree { derivation_of result.2 ≡ derivation nodes.Struct (fields_of self).strings (fields_of self).trees }
        ensures uses { result.3.items ≡ (fields_of self).uses }
    {
        let Fields {
            parts,
            cores,
            strings,
            trees,
            uses,
        } = self;
        let tree = Deriv {
            node: Node::Struct,
            marks: turned(strings),
            parts: turned(trees),
        };
        (turned(parts), turned(cores), tree, uses)
    }
}

// The marks between a field and the later ones; none for the last field.
#[tactic(auto, using(cg_check_pieces::proofs::FieldSteps::field_steps))]
fn add_string(
    alloc: Global,
    alone: bool,
    first: &Vec<Use>,
    later: &Vec<Use>,
    strings: &mut Items<Items<Mark>>,
) -> Result<(), Memory>
    ensures { IfOk result (λ _. reverse strings.new ≡ cond alone [] (splits.marks_of_uses first.now.items later.now.items ∷ reverse strings.old)) }
{
    if alone {
        *strings = Items::new(alloc);
        return Ok(());
    }
    strings.push(marks_of_uses(alloc, first, later)?)
}

// Puts what a field does in front of what the later ones do, with the marks between them. Want of memory is its one refusal.
fn add_uses(alloc: Global, alone: bool, uses: &Vec<Use>, later: &mut Fields) -> Result<(), Memory>
    ensures { IfOk result (λ _. fields_of later.new ≡ with_uses uses.now.items alone (fields_of later.old)) }
{
    add_string(alloc, alone, uses, &later.uses, &mut later.strings)?;
    later.uses = join(alloc, uses, &later.uses)?;
    Ok(())
}

// Puts a field in front of the later ones. Want of memory is its one refusal.
fn put_in_front(
    alloc: Global,
    name: &Name,
    got: Got,
    alone: bool,
    later: &mut Fields,
) -> Result<(), Memory>
    ensures { IfOk result (λ _. fields_of later.new ≡ in_front_of name.now (got_of got) alone (fields_of later.old)) }
{
    add_part(alloc, name, got.ty(), &mut later.parts)?;
    let (core, tree, uses) = got.apart();
    add_core(alloc, name, core, &mut later.cores)?;
    add_tree(tree, &mut later.trees)?;
    add_uses(alloc, alone, &uses, later)
}

/// A field in front of the later ones. Want of memory is its one refusal.
#[inline(never)]
pub fn in_front(
    alloc: Global,
    name: &Name,
    got: Got,
    alone: bool,
    later: Fields,
) -> Result<Fields, Stop>
    ensures { Agrees fields_of result (Ok (in_front_of name.now (got_of got) alone (fields_of later))) }
{
    let mut later = later;
    put_in_front(alloc, name, got, alone, &mut later)?;
    Ok(later)
}

/// A record of this type. Want of memory is its one refusal.
#[inline(never)]
pub fn struct_node(alloc: Global, place: Place, ty: &Ty, fields: Fields) -> Result<Got, Stop>
    ensures { Agrees got_of result (Ok (forms.struct_node place (type_of ty.now) (fields_of fields))) }
{
    let ty = copied(alloc, ty)?;
    let (_, cores, tree, uses) = fields.apart();
    made(alloc, place, ty, Form::Struct(cores), tree, uses)
}

/// A record of the type that its fields make. Want of memory is its one refusal.
#[inline(never)]
pub fn record_node(alloc: Global, place: Place, fields: Fields) -> Result<Got, Stop>
    ensures { Agrees got_of result (Ok (forms.struct_node place (record_of (fields_of fields).parts U) (fields_of fields))) }
{
    let (parts, cores, tree, uses) = fields.apart();
    let ty = Ty::Fields(parts, Sigil::U);
    let note = Typed { place, ty };
    let form = Form::Struct(cores);
    finished(alloc, Term { note, form }, tree, uses)
}

/// Whether these are no fields.
#[tactic(auto, using(crate::proofs::FieldSteps::end_steps))]
pub fn are_none(fields: &[FieldTerm<Place>]) -> bool
    ensures { result ≡ is_end (to_named (map the_field fields.now)) }
{
    fields.is_empty()
}

/// What no fields come to, in a context. Want of memory is its one refusal.
#[tactic(auto, using(crate::proofs::FieldSteps::none_steps))]
#[inline(never)]
pub fn no_fields(alloc: Global, context: &Vec<Known>) -> Result<Fields, Stop>
    ensures { Agrees fields_of result (Ok (nothing (length (types_in (entries_of context.now.items))))) }
{
    let uses = no_uses(alloc, context.len())?;
    Ok(Fields {
        parts: Items::new(alloc),
        cores: Items::new(alloc),
        strings: Items::new(alloc),
        trees: Items::new(alloc),
        uses,
    })
}
