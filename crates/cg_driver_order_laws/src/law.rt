// How files stand after a call, whatever calls of the outside are torn.
ghost use Rattle.std.specs.Prelude.{◌≡◌, ℕ, List, Some};
ghost use Rattle.cg_outside.specs.Torn.{torn_held, torn_reads_of, torn_writes_of, torn_taken, torn_sink_faults_of};
ghost use Rattle.cg_driver_steps.specs.World.{world};
ghost use Rattle.cg_driver_steps.specs.Steps.{WritesNone};
ghost use Rattle.cg_driver_steps.specs.Scripts.{Answers};
ghost use Rattle.cg_driver_words.specs.Words.{build, command_of, texts};
ghost use Rattle.cg_driver.specs.Commands.{Judges, asked};
ghost use Rattle.cg_driver.specs.Externs.{Extern, no_extern};
ghost use Rattle.cg_driver.specs.Found.{nothing};
ghost use Rattle.cg_driver_order_def.specs.Order.{IsInOrder};
ghost use Rattle.cg_driver_order_laws.specs.Laws.{BuildIsInOrder, build_pair};

use cg_driver::{Status, cogent};
use cg_outside::{TornFiles, TornSink};
use std::alloc::Global;

/// Whatever `build` answers, over any files and output and any table of abstract functions, files stand as its status says: at status 0
/// both of its files hold what its steps found, at status 4 the first file holds a prefix of its text, or the whole of it and the
/// second a prefix, unless the write to the output failed, and at any other but want of memory nothing has changed.
pub fn build_is_in_order()
    ensures { (table : Extern) → BuildIsInOrder table }
{}

/// Over files and an output whose calls are torn where they are told to be: whatever calls these are, and after however many bytes,
/// files stand as docs/LANGUAGE.md, "Commands", says. It is `cogent` itself.
pub fn torn_cogent(
    alloc: Global,
    words: &[String],
    files: &mut TornFiles,
    out: &mut TornSink,
) -> Status
    // What is printed, with which status, what stands afterwards, and why, to the byte.
    ensures answer { Answers Judges (asked no_extern words.now)
        (world (Some (torn_held files.old)) (torn_reads_of files.old) (torn_writes_of files.old))
        (world (Some (torn_held files.new)) (torn_reads_of files.new) (torn_writes_of files.new))
        (Some (torn_taken out.old)) (Some (torn_taken out.new)) (torn_sink_faults_of out.old) (torn_sink_faults_of out.new) result }

    // No file changes, where no step writes.
    ensures kept { WritesNone (asked no_extern words.now).steps → torn_held files.new ≡ torn_held files.old }

    // After `build` they stand as its status says.
    ensures build { (file text certificate : List ℕ) → command_of (texts words.now) ≡ Some (build file text certificate)
        → IsInOrder Judges (build_pair file text certificate) nothing (Some (torn_held files.old)) (Some (torn_held files.new))
        (torn_sink_faults_of out.old) (torn_sink_faults_of out.new) result }
{
    cogent(alloc, words, files, out)
}
