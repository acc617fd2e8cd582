// What follows of the clauses of the call.
ghost use Rattle.std.specs.Prelude.{◌≡◌, ◌≢◌, ◌⊎◌, ◌↔◌, ℕ, List, Some};
ghost use Rattle.std.specs.declared.option.Option.{Option};
ghost use Rattle.cg_core.specs.Kernels.{Function};
ghost use Rattle.cg_core_def.specs.Lawful.{IsLawfulKernel};
ghost use Rattle.cg_outside.specs.Held.{Held, bytes_at};
ghost use Rattle.cg_outside.specs.Memory.{honest_held, honest_taken};
ghost use Rattle.cg_driver_steps.specs.World.{world};
ghost use Rattle.cg_driver_steps.specs.Steps.{Outcome, WritesNone};
ghost use Rattle.cg_driver_steps.specs.Scripts.{Answers, ComesTo, Decides};
ghost use Rattle.cg_driver_words.specs.Words.{Command, build, check, recheck, run};
ghost use Rattle.cg_driver.specs.Accepted.{BuildWrites, IsAcceptedSource, IsBuildable, IsCertifiedSource, IsRunnable, PrintedIsCertified, WritesItsOwn};
ghost use Rattle.cg_driver.specs.Commands.{Judgement, certified, typed, Judges, script_of, asked};
ghost use Rattle.cg_driver.specs.Externs.{Extern, no_extern};
ghost use Rattle.cg_driver.specs.Found.{Found, functions as functions_found};

use crate::{Status, cogent};
use cg_outside::{HonestFiles, HonestSink};
use std::alloc::Global;

/// Over files and an output that never fail, the rules alone decide, want of memory apart. It is `cogent` itself; as a
/// contract it says that faults of the outside are the only cause of statuses 3 and 4.
pub fn honest_cogent(
    alloc: Global,
    words: &[String],
    files: &mut HonestFiles,
    out: &mut HonestSink,
) -> Status
    // What is printed, with which status, what stands afterwards, and why, to the byte. No count of faults ever rises.
    ensures answer { Answers Judges (asked no_extern words.now)
        (world (Some (honest_held files.old)) (λ name. 0) (λ name. 0)) (world (Some (honest_held files.new)) (λ name. 0) (λ name. 0))
        (Some (honest_taken out.old)) (Some (honest_taken out.new)) 0 0 result }

    // No file changes, where no step writes.
    ensures held { WritesNone (asked no_extern words.now).steps → honest_held files.new ≡ honest_held files.old }

    // No fault is answered.
    ensures no_read_fault { result ≢ Status.ReadFault }
    ensures no_write_fault { result ≢ Status.WriteFault }

    // The status is exactly the one that the steps come to over the files, want of memory apart.
    ensures decides { Decides (ComesTo Judges (asked no_extern words.now) (honest_held files.old)) result ⊎ (result ≡ Status.Memory) }
{
    cogent(alloc, words, files, out)
}

/// A judgement comes to one outcome at most, of each state: it refuses with one status and one line, or goes on in one state.
pub fn one_outcome()
    ensures { (judgement : Judgement) (found : Found) (a b : Outcome Found) → Judges judgement found a → Judges judgement found b → a ≡ b }
{}

/// The judgement of kinds and types comes to an outcome of each state whose kernel is lawful, as it is wherever the steps before went.
pub fn typing_decides()
    ensures { (file : List ℕ) (found : Found) → IsLawfulKernel (functions_found found) → (outcome : Outcome Found) × Judges (typed file) found outcome }
{}

/// The judgement of a certificate comes to an outcome of each state whose kernel is lawful.
pub fn certificates_decide()
    ensures { (certificate : List ℕ) (found : Found) → IsLawfulKernel (functions_found found) → (outcome : Outcome Found) × Judges (certified certificate) found outcome }
{}

/// What a command prints at status 0 of what its steps found is one text.
pub fn one_text()
    ensures { (table : Extern) (command : Option Command) (found : Found) (a b : List ℕ) → (script_of table command).line found a → (script_of table command).line found b → a ≡ b }
{}

/// `build` alone writes files: those that it names for the C text and for the certificate.
pub fn only_build_writes()
    ensures { (table : Extern) (command : Option Command) → WritesItsOwn table command }
{}

/// At status 0 of `build` the source is accepted, its instances are within the limits, the two files hold their C text and the source's
/// certificate, and all others stand as they did. What is printed then says of both that they mean the source (`Commands.antt: IsBuilt`).
pub fn build_writes_both()
    ensures { (table : Extern) → BuildWrites table }
{}

/// The steps of `check` come to status 0 over exactly the files whose source is accepted: the typing rules derive each function
/// of the program that it spells, and all is within the limits.
pub fn status_0_is_acceptance()
    ensures { (table : Extern) (held : Held) (file : List ℕ) → ComesTo Judges (script_of table (Some (check file))) held Status.Done
        ↔ ((functions : List Function) × IsAcceptedSource (bytes_at held file) functions) }
{}

/// The steps of `recheck` come to status 0 over exactly the files whose certificate spells a derivation of the source, with any splits,
/// and where all is within the limits.
pub fn status_0_is_a_derivation()
    ensures { (table : Extern) (held : Held) (file certificate : List ℕ) → ComesTo Judges (script_of table (Some (recheck file certificate))) held Status.Done
        ↔ IsCertifiedSource (bytes_at held file) (bytes_at held certificate) }
{}

/// The steps of `build` come to status 0 over exactly the files whose source is accepted, and whose instances and certificate are within their
/// limits.
pub fn status_0_of_build()
    ensures { (table : Extern) (held : Held) (file text certificate : List ℕ) → ComesTo Judges (script_of table (Some (build file text certificate))) held Status.Done
        ↔ IsBuildable (bytes_at held file) }
{}

/// The steps of `run` come to status 0 over exactly the files whose source is accepted and has the entry, which may be run, whose heap file holds
/// an argument of it, and on which evaluation ends within the steps.
pub fn status_0_of_run()
    ensures { (table : Extern) (held : Held) (file entry heap : List ℕ) (steps : ℕ) → ComesTo Judges (script_of table (Some (run file entry heap steps))) held Status.Done
        ↔ IsRunnable table (bytes_at held file) entry (bytes_at held heap) steps }
{}

/// A source whose certificate is in order is accepted: where the steps of `recheck` come to status 0, those of `check` do over the same files.
pub fn rechecked_is_accepted()
    ensures { (table : Extern) (held : Held) (file certificate : List ℕ) → ComesTo Judges (script_of table (Some (recheck file certificate))) held Status.Done
        → ComesTo Judges (script_of table (Some (check file))) held Status.Done }
{}

/// What `cg_cert`'s `print_cert` prints of a source that `check` keeps is such a certificate of it, where it is within the limit.
pub fn printed_is_certified()
    ensures { PrintedIsCertified }
{}
