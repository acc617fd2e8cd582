// The command `recheck`.
ghost use Rattle.std.specs.Prelude.{◌≡◌, ℕ, List, [], ◌∷◌, Err, IfOk};
ghost use Rattle.cg_cert.specs.declared.cert.Cert.{Cert as CertOf};
ghost use Rattle.cg_certcheck.specs.Judged.{Refuses};
ghost use Rattle.cg_core.specs.Kernels.{Function, kernel_of};
ghost use Rattle.cg_core_def.specs.Lawful.{IsLawfulKernel};
ghost use Rattle.cg_driver_steps.specs.World.{world};
ghost use Rattle.cg_driver_steps.specs.Parts.{Concludes, Reports, Rules, Steps};
ghost use Rattle.cg_driver.specs.Commands.{Judges, certificate_rules, certificate_steps, certified, reads_source, recheck_steps, rechecked_line};
ghost use Rattle.cg_driver.specs.Found.{Found, nothing, functions as functions_found};
ghost use Rattle.cg_driver.specs.Judged.{IsCertificate, RefusesCert, RefusesText};

use crate::judge::{SOURCE_LIMIT, read_source};
use cg_base::Memory;
use cg_cert::{Cert, CertFault, read_cert};
use cg_certcheck::recheck;
use cg_core::Kernel;
use cg_driver_lines::{beyond, limit_name, rechecked, wrong_byte, wrong_node};
use cg_driver_steps::{Report, Step, read_file};
use cg_outside::Files;
use std::alloc::Global;

/// No certificate has more bytes.
pub(crate) const CERTIFICATE_LIMIT: usize = 67_108_864;

/// The certificate whose text these bytes are.
fn certificate_in(alloc: Global, name: &str, bytes: &[u8]) -> Result<Step<Cert>, Memory>
    ensures { IfOk result (Steps (IsCertificate bytes.now) (RefusesText name.now bytes.now)) }
{
    if bytes.len() > CERTIFICATE_LIMIT {
        return Ok(Step::Ends(beyond(alloc, "certificate")?));
    }
    match read_cert(alloc, bytes) {
        Ok(cert) => Ok(Step::Goes(cert)),
        Err(CertFault::C1(byte)) => Ok(Step::Ends(wrong_byte(alloc, name, byte)?)),
        Err(_) => Err(Memory),
    }
}

/// What is said of a certificate that was read and spells no derivation of a kernel within the limit on types. So C1 never comes here.
fn not_certified(alloc: Global, name: &str, fault: CertFault) -> Result<Report, Memory>
    ensures { (fs : List Function) (cert : CertOf) → IsLawfulKernel fs → Refuses fs cert fault → IfOk result (Reports (RefusesCert name.now fs cert)) }
{
    match fault {
        CertFault::C1(byte) => wrong_byte(alloc, name, byte),
        CertFault::C2(node) => wrong_node(alloc, name, "C2", node),
        CertFault::C3(node) => wrong_node(alloc, name, "C3", node),
        CertFault::Limit(limit) => beyond(alloc, limit_name(limit)),
        CertFault::Memory => Err(Memory),
    }
}

/// Judges a certificate against a kernel.
fn recheck_cert(alloc: Global, name: &str, kernel: Kernel, cert: &Cert) -> Result<Report, Memory>
    requires lawful { IsLawfulKernel (kernel_of kernel) }
    ensures { (found : Found) → functions_found found ≡ kernel_of kernel → found.cert ≡ cert.now → Rules Judges rechecked_line (certified name.now ∷ []) found result }
{
    match recheck(alloc, kernel, cert) {
        Ok(checked) => {
            drop(checked);
            rechecked(alloc)
        }
        Err(fault) => not_certified(alloc, name, fault),
    }
}

/// What is said of the bytes of a certificate file, beside a kernel.
fn recheck_bytes(alloc: Global, name: &str, kernel: Kernel, bytes: &[u8]) -> Result<Report, Memory>
    requires lawful { IsLawfulKernel (kernel_of kernel) }
    ensures { (found : Found) → functions_found found ≡ kernel_of kernel → found.certificate ≡ bytes.now → Rules Judges rechecked_line (certificate_rules name.now) found result }
{
    match certificate_in(alloc, name, bytes) {
        Err(_) => Err(Memory),
        Ok(Step::Ends(report)) => Ok(report),
        Ok(Step::Goes(cert)) => recheck_cert(alloc, name, kernel, &cert),
    }
}

/// Reads a certificate file, and judges it against a kernel.
fn recheck_kernel<F: Files>(
    alloc: Global,
    name: &str,
    kernel: Kernel,
    files: &mut F,
) -> Result<Report, Memory>
    requires lawful { IsLawfulKernel (kernel_of kernel) }
    ensures { (found : Found) → functions_found found ≡ kernel_of kernel
        → Concludes Judges rechecked_line (certificate_steps name.now) found
        (world (F.held files.old) (F.failed_reads files.old) (F.failed_writes files.old))
        (world (F.held files.new) (F.failed_reads files.new) (F.failed_writes files.new)) result }
{
    match read_file(alloc, name, CERTIFICATE_LIMIT, files) {
        Err(_) => Err(Memory),
        Ok(Step::Ends(report)) => Ok(report),
        Ok(Step::Goes(bytes)) => recheck_bytes(alloc, name, kernel, &bytes),
    }
}

/// Reads a source up to its kernel, and judges the certificate file against that.
fn recheck_source<F: Files>(
    alloc: Global,
    file: &str,
    name: &str,
    source: &[u8],
    files: &mut F,
) -> Result<Report, Memory>
    ensures { (found : Found) → found.source ≡ source.now
        → Concludes Judges rechecked_line (recheck_steps file.now name.now) found
        (world (F.held files.old) (F.failed_reads files.old) (F.failed_writes files.old))
        (world (F.held files.new) (F.failed_reads files.new) (F.failed_writes files.new)) result }
{
    match read_source(alloc, file, source) {
        Err(_) => Err(Memory),
        Ok(Step::Ends(report)) => Ok(report),
        Ok(Step::Goes(kernel)) => recheck_kernel(alloc, name, kernel, files),
    }
}

/// Reads a source and a certificate file, and judges whether the one spells a derivation of the other, up to what is printed.
pub(crate) fn recheck_file<F: Files>(
    alloc: Global,
    file: &str,
    name: &str,
    files: &mut F,
) -> Result<Report, Memory>
    ensures { Concludes Judges rechecked_line (reads_source file.now ∷ recheck_steps file.now name.now) nothing
        (world (F.held files.old) (F.failed_reads files.old) (F.failed_writes files.old))
        (world (F.held files.new) (F.failed_reads files.new) (F.failed_writes files.new)) result }
{
    match read_file(alloc, file, SOURCE_LIMIT, files) {
        Err(_) => Err(Memory),
        Ok(Step::Ends(report)) => Ok(report),
        Ok(Step::Goes(source)) => recheck_source(alloc, file, name, &source, files),
    }
}
