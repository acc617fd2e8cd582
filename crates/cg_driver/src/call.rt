// The whole program.
ghost use Rattle.std.specs.Prelude.{◌≡◌, ◌∷◌, ◌⊎◌, ◌<◌, ℕ, List, Some, None};
ghost use Rattle.std.specs.Io.KnownBytes.{append_known};
ghost use Rattle.cg_outside.specs.Held.{Held};
ghost use Rattle.cg_outside.specs.Causes.{Rose};
ghost use Rattle.cg_driver_steps.specs.declared.status.Status.{Status as StatusOf};
ghost use Rattle.cg_driver_steps.specs.World.{world, Unwritten};
ghost use Rattle.cg_driver_steps.specs.Steps.{Runs, goes, Reads, Writes, WritesNone, IsCalm, unread_line, unwritten_line};
ghost use Rattle.cg_driver_steps.specs.Scripts.{Answers, Leaves, Comes, ComesTo, IsVerdict, Decides};
ghost use Rattle.cg_driver_words.specs.Words.{build, texts, command_of};
ghost use Rattle.cg_driver.specs.Commands.{Judges, asked, build_steps, reads_source};
ghost use Rattle.cg_driver.specs.Externs.{no_extern};
ghost use Rattle.cg_driver.specs.Found.{Found, functions, nothing};
ghost use Rattle.cg_driver.specs.Instanced.{IsCompiled};

use crate::Status;
use crate::plan::plan;
use cg_driver_steps::print_report;
use cg_outside::{Files, Sink};
use std::alloc::Global;

/// A call, up to its exact answer.
fn answer<F: Files, O: Sink>(alloc: Global, words: &[String], files: &mut F, out: &mut O) -> Status
    ensures { Answers Judges (asked no_extern words.now)
        (world (F.held files.old) (F.failed_reads files.old) (F.failed_writes files.old))
        (world (F.held files.new) (F.failed_reads files.new) (F.failed_writes files.new))
        (O.taken out.old) (O.taken out.new) (O.faults out.old) (O.faults out.new) result }
{
    match plan(alloc, words, files) {
        Ok(report) => print_report(out, report),
        Err(_) => Status::Memory,
    }
}

/// Does what the words ask for, and prints what there is to say by one write. docs/LANGUAGE.md, "Commands",
/// says what each command does, and "Statuses" what each answer means.
pub fn cogent<F: Files, O: Sink>(
    alloc: Global,
    words: &[String],
    files: &mut F,
    out: &mut O,
) -> Status
    // What is printed, with which status, what stands afterwards, and why, to the byte: a run of the command's steps.
    ensures answer { Answers Judges (asked no_extern words.now)
        (world (F.held files.old) (F.failed_reads files.old) (F.failed_writes files.old))
        (world (F.held files.new) (F.failed_reads files.new) (F.failed_writes files.new))
        (O.taken out.old) (O.taken out.new) (O.faults out.old) (O.faults out.new) result }

    // Where contents are told and neither a fault nor want of memory decides, the status is exactly the one that the steps come to over the
    // files, and what they say is printed and nothing else.
    ensures decides { (held : Held) → F.held files.old ≡ Some held → IsVerdict result → Decides (ComesTo Judges (asked no_extern words.now) held) result }
    ensures refuses { (held : Held) (status : StatusOf) (text : List ℕ) → F.held files.old ≡ Some held → IsVerdict result
        → Comes Judges (asked no_extern words.now) held status text → (result ≡ status) × (O.taken out.new ≡ append_known (O.taken out.old) text) }

    // Files and counts stand as some of the steps leave them, the last of which may have failed; and where no step writes, no file is
    // written to.
    ensures stands { Leaves Judges (asked no_extern words.now)
        (world (F.held files.old) (F.failed_reads files.old) (F.failed_writes files.old))
        (world (F.held files.new) (F.failed_reads files.new) (F.failed_writes files.new)) }
    ensures unwritten { WritesNone (asked no_extern words.now).steps → Unwritten
        (world (F.held files.old) (F.failed_reads files.old) (F.failed_writes files.old))
        (world (F.held files.new) (F.failed_reads files.new) (F.failed_writes files.new)) }

    // A fault has its cause and its line, where a read failed no file was written to, and at want of memory nothing is printed.
    ensures read_fault { result ≡ Status.ReadFault → (name : List ℕ) × Reads (asked no_extern words.now).steps name
        × (F.failed_reads files.old name < F.failed_reads files.new name) × (O.taken out.new ≡ append_known (O.taken out.old) (unread_line name)) }
    ensures untouched { result ≡ Status.ReadFault → Unwritten
        (world (F.held files.old) (F.failed_reads files.old) (F.failed_writes files.old))
        (world (F.held files.new) (F.failed_reads files.new) (F.failed_writes files.new)) }
    ensures write_fault { result ≡ Status.WriteFault → ((name : List ℕ) × Writes (asked no_extern words.now).steps name
        × (F.failed_writes files.old name < F.failed_writes files.new name) × (O.taken out.new ≡ append_known (O.taken out.old) (unwritten_line name)))
        ⊎ Rose (O.faults out.old) (O.faults out.new) }
    ensures memory { result ≡ Status.Memory → (O.taken out.new ≡ O.taken out.old) × (O.faults out.new ≡ O.faults out.old) }

    // At status 0 all steps were gone through, and what is printed is said of what they found.
    ensures finished { result ≡ Status.Done → (found : Found) × (text : List ℕ)
        × Runs Judges (asked no_extern words.now).steps (asked no_extern words.now).start
        (world (F.held files.old) (F.failed_reads files.old) (F.failed_writes files.old)) (goes found)
        (world (F.held files.new) (F.failed_reads files.new) (F.failed_writes files.new))
        × (asked no_extern words.now).line found text × (O.taken out.new ≡ append_known (O.taken out.old) text) }

    // At status 0 of `build` the C text refines the source on any heap, over any lawful table of abstract functions, and the certificate is one of
    // the source, whatever counts rose: both are those of what its steps found, which wrote them.
    ensures compiles { result ≡ Status.Done → (file text certificate : List ℕ)
        → command_of (texts words.now) ≡ Some (build file text certificate) → (found : Found)
        × Runs Judges (reads_source file ∷ build_steps file text certificate) nothing
        (world (F.held files.old) (F.failed_reads files.old) (F.failed_writes files.old)) (goes found)
        (world (F.held files.new) (F.failed_reads files.new) (F.failed_writes files.new))
        × IsCompiled (functions found) found.copies }

    // Where no count of the command's calls rose, the status is the one that its steps come to, unless memory runs out.
    ensures done { (held : Held) (status : StatusOf) → F.held files.old ≡ Some held
        → IsCalm (asked no_extern words.now).steps
        (world (F.held files.old) (F.failed_reads files.old) (F.failed_writes files.old))
        (world (F.held files.new) (F.failed_reads files.new) (F.failed_writes files.new))
        → (Rose (O.faults out.old) (O.faults out.new) → ⊥) → ComesTo Judges (asked no_extern words.now) held status → (result ≡ status) ⊎ (result ≡ Status.Memory) }

    // The usage text is for words that are no command, and for all of them.
    ensures usage { result ≡ Status.Usage → command_of (texts words.now) ≡ None }
    ensures other_words { command_of (texts words.now) ≡ None → IsVerdict result → result ≡ Status.Usage }
{
    answer(alloc, words, files, out)
}
