// What the command `gen` comes to.
ghost use Rattle.cg_gen_laws.specs.Laws.{GenAnswers, GenGoes, GenIsNeverRefused};

use cg_driver::one_outcome;
use cg_gen_certificate_laws::certificate_is_short;
use cg_gen_names_laws::{entry_is_last, kernel_is_made, limits_are_kept, names_are_in_order};
use cg_gen_run_laws::{evaluation_gives, heap_is_held, steps_are_enough};
use cg_gen_text_laws::{source_is_short, source_is_spelled};
use cg_gen_typing_laws::{
    cores_are_derived, instances_are_within, kernel_is_accepted, types_are_small,
};

/// The steps of `gen` go to a state in which the generated source is accepted, with so many functions and instances, and evaluation of the last
/// gave the cell with its number at its cost (docs/LANGUAGE.md, "Generator").
pub fn gen_goes()
    ensures { GenGoes }
{
    source_is_spelled();
    source_is_short();
    certificate_is_short();
    names_are_in_order();
    kernel_is_made();
    limits_are_kept();
    entry_is_last();
    cores_are_derived();
    kernel_is_accepted();
    types_are_small();
    instances_are_within();
    evaluation_gives();
    steps_are_enough();
    heap_is_held();
}

/// Whatever they come to is this: `gen` is never refused (docs/LANGUAGE.md, "Generator").
pub fn gen_is_never_refused()
    ensures { GenIsNeverRefused }
{
    one_outcome();
    gen_goes();
}

/// Want of memory and a fault of the output are its only other answers: a call of `gen` answers status 0, or 4 where its one write to the
/// output failed, or 5 (docs/LANGUAGE.md, "Generator").
pub fn gen_answers()
    ensures { GenAnswers }
{
    gen_is_never_refused();
}
