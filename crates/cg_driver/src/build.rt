// The command `build`.
ghost use Rattle.std.specs.Prelude.{◌≡◌, ◌≤◌, ◌∷◌, List, [], IfOk};
ghost use Rattle.cg_resolve_def.specs.Desugar.{deepest_body};
ghost use Rattle.cg_driver_laws.specs.Laws.{copies_in};
ghost use Rattle.cg_driver_steps.specs.World.{world};
ghost use Rattle.cg_driver_steps.specs.Steps.{judged_first};
ghost use Rattle.cg_driver_steps.specs.Parts.{Concludes, Steps};
ghost use Rattle.cg_typing.specs.Instances.{Instance};
ghost use Rattle.cg_driver.specs.Built.{IsWritten, IsListed, KeepsCopies, RefusesCertificate, RefusesInstances};
ghost use Rattle.cg_driver.specs.Commands.{Judges, build_steps, IsBuilt, certifiable, instanced, reads_source, writes_both, writes_certificate};
ghost use Rattle.cg_driver.specs.Found.{Found, nothing, functions as functions_found};
ghost use Rattle.cg_driver.specs.Instanced.{IsMeant, emitted};
ghost use Rattle.cg_driver.specs.Judged.{functions_in, CanBeBuilt, HoldsCores};

use crate::judge::{SOURCE_LIMIT, judge};
use crate::recheck::CERTIFICATE_LIMIT;
use cg_base::Memory;
use cg_cert::print_cert;
use cg_ctext::print_c;
use cg_driver_laws::sources_print;
use cg_driver_lines::{beyond, built, limit_name};
use cg_driver_steps::{Report, Step, read_file, write_file};
use cg_inst::{InstFault, Instances, instances};
use cg_lower::lower;
use cg_mono::mono;
use cg_outside::Files;
use cg_typing::Checked;
use std::alloc::Global;

/// What is to be built: the names of the source, of the C text and of the certificate.
#[derive(Clone, Copy)]
pub(crate) struct Named<'a> {
    pub file: &'a str,
    pub text: &'a str,
    pub certificate: &'a str,
}

/// What is written of a source: the C text of its instances and the certificate of its functions; and how many instances there are.
#[derive(Drop)]
pub(crate) struct Built {
    pub text: Vec<u8>,
    pub certificate: Vec<u8>,
    pub instances: usize,
}

/// The instances of a checked source.
pub(crate) fn listed(alloc: Global, checked: &Checked) -> Result<Step<Instances>, Memory>
    requires cores { HoldsCores checked.now }
    ensures { IfOk result (Steps (IsListed checked.now) (RefusesInstances (functions_in checked.now))) }
{
    match instances(alloc, checked) {
        Ok(list) => Ok(Step::Goes(list)),
        Err(InstFault::Limit(limit)) => Ok(Step::Ends(beyond(alloc, limit_name(limit))?)),
        Err(InstFault::Memory) => Err(Memory),
    }
}

/// The C text of the instances of a checked source.
pub(crate) fn emit_text(
    alloc: Global,
    checked: &Checked,
    list: &Instances,
) -> Result<Vec<u8>, Memory>
    requires list { IsListed checked.now list.now }
    requires shallow { deepest_body (functions_in checked.now) ≤ 512 }
    ensures text { IfOk result (λ t. t.items ≡ emitted (copies_in checked.now list.now)) }
    ensures meant { IfOk result (λ t. IsMeant (copies_in checked.now list.now)) }
{
    let copies = mono(alloc, checked, list)?;
    let program = lower(alloc, &copies)?;
    sources_print();
    print_c(alloc, &program)
}

/// What is written of a checked source with these instances.
pub(crate) fn make(
    alloc: Global,
    checked: &Checked,
    list: &Instances,
) -> Result<Step<Built>, Memory>
    requires list { IsListed checked.now list.now }
    requires ready { CanBeBuilt checked.now }
    ensures { IfOk result (Steps (IsWritten checked.now list.now) (RefusesCertificate (functions_in checked.now))) }
{
    let text = emit_text(alloc, checked, list)?;
    let certificate = print_cert(alloc, checked)?;
    if certificate.len() > CERTIFICATE_LIMIT {
        return Ok(Step::Ends(beyond(alloc, "certificate")?));
    }
    Ok(Step::Goes(Built {
        text,
        certificate,
        instances: list.len(),
    }))
}

/// Writes the certificate, up to what is printed.
fn write_certificate<F: Files>(
    alloc: Global,
    names: &Named<'_>,
    checked: &Checked,
    made: &Built,
    files: &mut F,
) -> Result<Report, Memory>
    requires ready { CanBeBuilt checked.now }
    ensures { (list : List Instance) (found : Found) → IsWritten checked.now list made.now → KeepsCopies checked.now list found
        → Concludes Judges IsBuilt (writes_certificate names.now.certificate.now) found
        (world (F.held files.old) (F.failed_reads files.old) (F.failed_writes files.old))
        (world (F.held files.new) (F.failed_reads files.new) (F.failed_writes files.new)) result }
{
    match write_file(alloc, names.certificate, &made.certificate, files) {
        Err(_) => Err(Memory),
        Ok(Step::Ends(report)) => Ok(report),
        Ok(Step::Goes(())) => built(alloc, checked.kernel().funs.as_slice(), made.instances),
    }
}

/// Writes the C text, and then the certificate, up to what is printed.
fn write_both<F: Files>(
    alloc: Global,
    names: &Named<'_>,
    checked: &Checked,
    made: &Built,
    files: &mut F,
) -> Result<Report, Memory>
    requires ready { CanBeBuilt checked.now }
    ensures { (list : List Instance) (found : Found) → IsWritten checked.now list made.now → KeepsCopies checked.now list found
        → Concludes Judges IsBuilt (writes_both names.now.text.now names.now.certificate.now) found
        (world (F.held files.old) (F.failed_reads files.old) (F.failed_writes files.old))
        (world (F.held files.new) (F.failed_reads files.new) (F.failed_writes files.new)) result }
{
    match write_file(alloc, names.text, &made.text, files) {
        Err(_) => Err(Memory),
        Ok(Step::Ends(report)) => Ok(report),
        Ok(Step::Goes(())) => write_certificate(alloc, names, checked, made, files),
    }
}

/// Makes what is written of a checked source with these instances, and writes it.
fn build_listed<F: Files>(
    alloc: Global,
    names: &Named<'_>,
    checked: &Checked,
    list: &Instances,
    files: &mut F,
) -> Result<Report, Memory>
    requires list { IsListed checked.now list.now }
    requires ready { CanBeBuilt checked.now }
    ensures { (found : Found) → KeepsCopies checked.now list.now found
        → Concludes Judges IsBuilt (judged_first (certifiable ∷ []) (writes_both names.now.text.now names.now.certificate.now)) found
        (world (F.held files.old) (F.failed_reads files.old) (F.failed_writes files.old))
        (world (F.held files.new) (F.failed_reads files.new) (F.failed_writes files.new)) result }
{
    match make(alloc, checked, list) {
        Err(_) => Err(Memory),
        Ok(Step::Ends(report)) => Ok(report),
        Ok(Step::Goes(made)) => write_both(alloc, names, checked, &made, files),
    }
}

/// Lists the instances of a source that is accepted, and builds it.
fn build_checked<F: Files>(
    alloc: Global,
    names: &Named<'_>,
    checked: &Checked,
    files: &mut F,
) -> Result<Report, Memory>
    requires cores { HoldsCores checked.now }
    requires ready { CanBeBuilt checked.now }
    ensures { (found : Found) → functions_found found ≡ functions_in checked.now
        → Concludes Judges IsBuilt (judged_first (instanced ∷ certifiable ∷ []) (writes_both names.now.text.now names.now.certificate.now)) found
        (world (F.held files.old) (F.failed_reads files.old) (F.failed_writes files.old))
        (world (F.held files.new) (F.failed_reads files.new) (F.failed_writes files.new)) result }
{
    match listed(alloc, checked) {
        Err(_) => Err(Memory),
        Ok(Step::Ends(report)) => Ok(report),
        Ok(Step::Goes(list)) => build_listed(alloc, names, checked, &list, files),
    }
}

/// Judges a source that was read, and builds it.
fn build_source<F: Files>(
    alloc: Global,
    names: &Named<'_>,
    source: &[u8],
    files: &mut F,
) -> Result<Report, Memory>
    ensures { (found : Found) → found.source ≡ source.now
        → Concludes Judges IsBuilt (build_steps names.now.file.now names.now.text.now names.now.certificate.now) found
        (world (F.held files.old) (F.failed_reads files.old) (F.failed_writes files.old))
        (world (F.held files.new) (F.failed_reads files.new) (F.failed_writes files.new)) result }
{
    match judge(alloc, names.file, source) {
        Err(_) => Err(Memory),
        Ok(Step::Ends(report)) => Ok(report),
        Ok(Step::Goes(checked)) => build_checked(alloc, names, &checked, files),
    }
}

/// Reads a source, judges it, and writes its C text and its certificate, up to what is printed.
pub(crate) fn build_file<F: Files>(
    alloc: Global,
    names: &Named<'_>,
    files: &mut F,
) -> Result<Report, Memory>
    ensures { Concludes Judges IsBuilt (reads_source names.now.file.now ∷ build_steps names.now.file.now names.now.text.now names.now.certificate.now) nothing
        (world (F.held files.old) (F.failed_reads files.old) (F.failed_writes files.old))
        (world (F.held files.new) (F.failed_reads files.new) (F.failed_writes files.new)) result }
{
    match read_file(alloc, names.file, SOURCE_LIMIT, files) {
        Err(_) => Err(Memory),
        Ok(Step::Ends(report)) => Ok(report),
        Ok(Step::Goes(source)) => build_source(alloc, names, &source, files),
    }
}
