// The lines that are printed.
ghost use Rattle.std.specs.Prelude.{◌≡◌, ◌++◌, IfOk, OnOk, count_by, is_some, length, map, string_bytes};
ghost use Rattle.cg_base.specs.Types.{type_of};
ghost use Rattle.cg_core.specs.Kernels.{function_of};
ghost use Rattle.cg_value.specs.Printed.{printed};
ghost use Rattle.cg_value.specs.Values.{value_of};
ghost use Rattle.cg_driver_lines.specs.Lines as lines;
ghost use Rattle.cg_driver_lines.specs.Lines.{IsFaultOfFile};
ghost use Rattle.cg_driver_steps.specs.Parts.{IsLine};

use crate::Machined;
use cg_base::{Limit, Memory, Place, Ty};
use cg_core::KFun;
use cg_driver_steps::{Report, Status};
use cg_faults::Rule;
use cg_heaptext::HeapFault;
use cg_value::{Value, print_value};
use std::alloc::Global;

/// The usage text.
pub fn usage(alloc: Global) -> Result<Report, Memory>
    ensures { IfOk result (λ r. IsLine Status.Usage lines.usage_text r) }
{
    Ok(Report::of_text(
        Status::Usage,
        String::from_str(
            alloc,
            "usage: cogent check FILE\n       cogent build FILE CFILE CERTFILE\n       cogent recheck FILE CERTFILE\n       cogent run FILE ENTRY HEAPFILE [--steps N]\n       cogent gen N\n",
        )?,
    ))
}

/// The refusal of a source at a place, by a rule with its text.
pub fn fault(alloc: Global, file: &str, place: Place, rule: &str) -> Result<Report, Memory>
    ensures { IfOk result (λ r. IsLine Status.Refused (lines.fault_line file.now place rule.now) r) }
{
    let Place { line, column } = place;
    Ok(Report::of_text(
        Status::Refused,
        format!(in alloc; "{file}:{line}:{column}: {rule}\n")?,
    ))
}

/// The name of a rule of kinds or types (docs/LANGUAGE.md, "Typing").
fn rule_name(rule: Rule) -> &'static str
    ensures { result.now ≡ lines.rule_name rule }
{
    match rule {
        Rule::K1 => "K1",
        Rule::K2 => "K2",
        Rule::K3 => "K3",
        Rule::K4 => "K4",
        Rule::K5 => "K5",
        Rule::K6 => "K6",
        Rule::K7 => "K7",
        Rule::T1 => "T1",
        Rule::T2 => "T2",
        Rule::T3 => "T3",
        Rule::T4 => "T4",
        Rule::T5 => "T5",
        Rule::T6 => "T6",
        Rule::T7 => "T7",
        Rule::T8 => "T8",
        Rule::T9 => "T9",
        Rule::T10 => "T10",
        Rule::T11 => "T11",
        Rule::T12 => "T12",
        Rule::T13 => "T13",
        Rule::T14 => "T14",
    }
}

/// The refusal of a source at a place, by a rule of kinds or types.
pub fn broken(alloc: Global, file: &str, place: Place, rule: Rule) -> Result<Report, Memory>
    ensures { IfOk result (λ r. IsLine Status.Refused (lines.fault_line file.now place (lines.rule_line rule)) r) }
{
    let Place { line, column } = place;
    let name = rule_name(rule);
    let text = rule.text();
    Ok(Report::of_text(
        Status::Refused,
        format!(in alloc; "{file}:{line}:{column}: {name} {text}\n")?,
    ))
}

/// The refusal of an entry that isn't there.
pub fn no_entry(alloc: Global, file: &str) -> Result<Report, Memory>
    ensures { IfOk result (λ r. IsLine Status.Refused (lines.no_entry_line file.now) r) }
{
    Ok(Report::of_text(
        Status::Refused,
        format!(in alloc; "{file}: E1 no such function\n")?,
    ))
}

/// The refusal of an entry whose type isn't allowed.
pub fn no_entry_type(alloc: Global, file: &str) -> Result<Report, Memory>
    ensures { IfOk result (λ r. IsLine Status.Refused (lines.entry_type_line file.now) r) }
{
    Ok(Report::of_text(
        Status::Refused,
        format!(in alloc; "{file}: E2 entry type not allowed\n")?,
    ))
}

/// The refusal of an entry that reaches an abstract function.
pub fn abstract_reached(alloc: Global, file: &str) -> Result<Report, Memory>
    ensures { IfOk result (λ r. IsLine Status.Refused (lines.abstract_line file.now) r) }
{
    Ok(Report::of_text(
        Status::Refused,
        format!(in alloc; "{file}: M1 abstract function reached\n")?,
    ))
}

/// The refusal of a heap file on a line, by a rule with its text.
fn heap_rule(alloc: Global, heap: &str, line: u32, rule: &str) -> Result<Report, Memory>
    ensures { IfOk result (λ r. IsLine Status.HeapRefused (lines.heap_rule heap.now line rule.now) r) }
{
    Ok(Report::of_text(
        Status::HeapRefused,
        format!(in alloc; "{heap}:{line}: {rule}\n")?,
    ))
}

/// The refusal of a heap file by its first fault.
pub fn heap_refused(alloc: Global, heap: &str, fault: HeapFault) -> Result<Report, Memory>
    ensures { IfOk result (λ r. IsLine Status.HeapRefused (lines.heap_line heap.now fault) r × IsFaultOfFile fault) }
{
    match fault {
        HeapFault::H1(line) => heap_rule(alloc, heap, line, "H1 not in the heap grammar"),
        HeapFault::H2(line) => heap_rule(alloc, heap, line, "H2 address defined twice"),
        HeapFault::H3(line) => heap_rule(alloc, heap, line, "H3 address is absent"),
        HeapFault::H4(line) => heap_rule(alloc, heap, line, "H4 value does not fit its type"),
        HeapFault::H5(line) => heap_rule(alloc, heap, line, "H5 number out of range"),
        HeapFault::H6(line) => heap_rule(alloc, heap, line, "H6 writable cell reached twice"),
        HeapFault::H7(line) => heap_rule(alloc, heap, line, "H7 too many cells or elements"),
        HeapFault::Memory => Err(Memory),
    }
}

/// The name of a limit (docs/LANGUAGE.md, "Limits").
pub fn limit_name(limit: Limit) -> &'static str
    ensures { result.now ≡ lines.limit_name limit }
{
    match limit {
        Limit::Source => "source",
        Limit::Nesting => "nesting",
        Limit::Functions => "functions",
        Limit::Fields => "fields",
        Limit::Ty => "type",
        Limit::Depth => "depth",
        Limit::Instances => "instances",
        Limit::Core => "core",
        Limit::Heap => "heap",
        Limit::Certificate => "certificate",
    }
}

/// The line of a limit.
pub fn beyond(alloc: Global, limit: &str) -> Result<Report, Memory>
    ensures { IfOk result (λ r. IsLine Status.TooLarge (lines.limit_line limit.now) r) }
{
    Ok(Report::of_text(Status::TooLarge, format!(in alloc; "limit: {limit}\n")?))
}

/// The line of the step limit.
pub fn step_limit(alloc: Global, steps: u64) -> Result<Report, Memory>
    ensures { IfOk result (λ r. IsLine Status.StepLimit (lines.step_limit_line steps) r) }
{
    Ok(Report::of_text(
        Status::StepLimit,
        format!(in alloc; "step limit {steps} reached\n")?,
    ))
}

/// How many functions have a definition.
fn count_functions(functions: &[KFun]) -> usize
    ensures { result ≡ count_by (λ f. is_some f.body) functions.now }
{
    let mut count = 0;
    for function in functions {
        count += usize::from(function.body.is_some());
    }
    count
}

/// The line of an accepted kernel.
pub fn accepted(alloc: Global, functions: &[KFun]) -> Result<Report, Memory>
    ensures { IfOk result (λ r. IsLine Status.Done (lines.ok_line (map function_of functions.now)) r) }
{
    let count = count_functions(functions);
    Ok(Report::of_text(Status::Done, format!(in alloc; "ok: {count} functions\n")?))
}

/// The line of a source that is written, with so many instances.
pub fn built(alloc: Global, functions: &[KFun], instances: usize) -> Result<Report, Memory>
    ensures { IfOk result (λ r. IsLine Status.Done (lines.built_line (map function_of functions.now) instances) r) }
{
    let count = count_functions(functions);
    Ok(Report::of_text(
        Status::Done,
        format!(in alloc; "ok: {count} functions, {instances} instances\n")?,
    ))
}

/// The line of a certificate that spells a derivation.
pub fn rechecked(alloc: Global) -> Result<Report, Memory>
    ensures { IfOk result (λ r. IsLine Status.Done lines.rechecked_line r) }
{
    Ok(Report::of_text(Status::Done, String::from_str(alloc, "ok\n")?))
}

/// The refusal of a certificate at a byte of its text.
pub fn wrong_byte(alloc: Global, certificate: &str, byte: usize) -> Result<Report, Memory>
    ensures { IfOk result (λ r. IsLine Status.CertRefused (lines.byte_line certificate.now byte) r) }
{
    Ok(Report::of_text(
        Status::CertRefused,
        format!(in alloc; "{certificate}: C1 at byte {byte}\n")?,
    ))
}

/// The refusal of a certificate at a node, by a rule.
pub fn wrong_node(alloc: Global, certificate: &str, rule: &str, node: u64) -> Result<Report, Memory>
    ensures { IfOk result (λ r. IsLine Status.CertRefused (lines.node_line certificate.now rule.now node) r) }
{
    Ok(Report::of_text(
        Status::CertRefused,
        format!(in alloc; "{certificate}: {rule} at node {node}\n")?,
    ))
}

/// Adds these bytes.
fn put(out: &mut Vec<u8>, piece: &[u8]) -> Result<(), Memory>
    ensures { OnOk result (out.new.items ≡ out.old.items ++ piece.now) }
{
    out.extend_from_slice(piece)?;
    Ok(())
}

/// Adds the text of a value.
fn put_printed(alloc: Global, out: &mut Vec<u8>, value: &Value, ty: &Ty) -> Result<(), Memory>
    ensures { OnOk result (out.new.items ≡ out.old.items ++ printed (value_of value.now) (type_of ty.now)) }
{
    let text = print_value(alloc, value, ty)?;
    put(out, &text)
}

/// The lines of what a run costs, and of its cells.
fn count_lines(alloc: Global, cost: u64, run: &Machined) -> Result<String, Memory>
    ensures { IfOk result (λ text. string_bytes text ≡ lines.count_lines cost run.now.steps (length run.now.made) (length run.now.freed) (length run.now.kept)) }
{
    let Machined {
        steps,
        made,
        freed,
        kept,
        ..
    } = run;
    let new = made.len();
    let gone = freed.len();
    let left = kept.len();
    Ok(format!(in alloc;
        "\ncost: {cost}\nsteps: {steps}\nnew: {new}\nfreed: {gone}\nkept: {left}\n"
    )?)
}

/// The seven lines of a run whose results have this type.
#[tactic(auto, using(std::proofs::lemmas::Grind::common_steps))]
pub fn ran(
    alloc: Global,
    ty: &Ty,
    value: &Value,
    cost: u64,
    run: &Machined,
) -> Result<Report, Memory>
    ensures { IfOk result (λ r. IsLine Status.Done (lines.report (type_of ty.now) (value_of value.now) (value_of run.now.value) cost run.now.steps run.now.made run.now.freed run.now.kept) r) }
{
    let mut text = Vec::new(alloc);
    put(&mut text, b"value: ")?;
    put_printed(alloc, &mut text, value, ty)?;
    put(&mut text, b"\nc: ")?;
    put_printed(alloc, &mut text, &run.value, ty)?;
    put(&mut text, count_lines(alloc, cost, run)?.as_bytes())?;
    Ok(Report {
        status: Status::Done,
        text,
    })
}
