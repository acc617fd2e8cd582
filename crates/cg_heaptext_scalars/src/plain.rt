// Values that are one scalar.
#![tactic(auto, unfolding(cg_heaptext_def::specs::Reading::scalars))]

ghost use Rattle.std.specs.Prelude.{OnOk};
ghost use Rattle.cg_base.specs.Types.{bool as truths, unit, word};
ghost use Rattle.cg_base.specs.declared.kind.Word.{Word};
ghost use Rattle.cg_heaptext_def.specs.Reading.{scalars};
ghost use Rattle.cg_heaptext_def.specs.Trees.{Written, bare};
ghost use Rattle.cg_heaptext_values.specs.Values.{StandsAt};
ghost use Rattle.cg_heaptext_scalars.specs.Given.{Adds, address_in};

use cg_base::{Items, Memory};
use cg_heap::Scalar;
use cg_heaptext_cells::number;
use cg_heaptext_values::{Head, ValueAt};

// Adds the scalar of unit.
pub(crate) fn add_unit(out: &mut Items<Scalar>, value: &ValueAt) -> Result<(), Memory>
    ensures { (v : Written) → StandsAt value.now v → OnOk result (Adds out.old (scalars unit (bare v)) out.new) }
{
    match value.head() {
        Head::Nothing => out.push(Scalar::Word(0)),
        _ => Ok(()),
    }
}

// Adds that of a word.
pub(crate) fn add_word(out: &mut Items<Scalar>, value: &ValueAt) -> Result<(), Memory>
    ensures { (v : Written) (w : Word) → StandsAt value.now v → OnOk result (Adds out.old (scalars (word w) (bare v)) out.new) }
{
    match value.head() {
        Head::Number(numeral) => out.push(Scalar::Word(number(numeral.digits))),
        _ => Ok(()),
    }
}

// Adds that of a truth value.
pub(crate) fn add_truth(out: &mut Items<Scalar>, value: &ValueAt) -> Result<(), Memory>
    ensures { (v : Written) → StandsAt value.now v → OnOk result (Adds out.old (scalars truths (bare v)) out.new) }
{
    match value.head() {
        Head::Truth(truth) => out.push(Scalar::Word(u64::from(truth))),
        _ => Ok(()),
    }
}

// Adds the address of a cell.
pub(crate) fn add_address(out: &mut Items<Scalar>, value: &ValueAt) -> Result<(), Memory>
    ensures { (v : Written) → StandsAt value.now v → OnOk result (Adds out.old (address_in (bare v)) out.new) }
{
    match value.head() {
        Head::Address(_, address) => out.push(Scalar::Address(number(address.digits))),
        _ => Ok(()),
    }
}
