// The command line as clap is told of it.
ghost use Rattle.std.specs.Prelude.{◌≡◌, false, map, IfOk};
ghost use Rattle.clap.specs.Words.{app_of, rule_of, shape_of};
ghost use Rattle.clap.specs.declared.builder.command.Command.TheViews.{out-Command as fields_of};
ghost use Rattle.cg_driver_words.specs.Apps.{bare_app, cogent_app, file_app, name_rule, named, run_app, source_app};

use clap::{Arg, Command};
use std::alloc::{AllocError, Global};

/// A name that has to be given.
fn name<'a>(alloc: Global, id: &'a str) -> Arg<'a>
    ensures rule { rule_of result ≡ name_rule id.now }
    ensures global { result.global ≡ false }
{
    Arg::new(alloc, id).required(true)
}

/// A command with these names, in their order.
fn command<'a>(alloc: Global, word: &'a str, names: &[&'a str]) -> Result<Command<'a>, AllocError>
    ensures app { IfOk result (λ c. app_of c ≡ named word.now (map (λ n. n.now) names.now)) }
    ensures shape { IfOk result (λ c. shape_of c ≡ (named word.now (map (λ n. n.now) names.now)).top) }
    ensures globals { IfOk result (λ c. (fields_of c).has_globals ≡ false) }
{
    let mut command = Command::new(alloc, word);
    for id in names {
        command = command.arg(name(alloc, *id))?;
    }
    Ok(command)
}

/// `run FILE ENTRY HEAPFILE [--steps N]`.
fn run<'a>(alloc: Global) -> Result<Command<'a>, AllocError>
    ensures app { IfOk result (λ c. app_of c ≡ run_app) }
    ensures shape { IfOk result (λ c. shape_of c ≡ run_app.top) }
    ensures globals { IfOk result (λ c. (fields_of c).has_globals ≡ false) }
{
    command(alloc, "run", &["file", "entry", "heap"])?.arg(Arg::new(alloc, "steps").long("steps"))
}

/// The whole command line, without its commands: it has no help and no version of clap's.
fn bare<'a>(alloc: Global) -> Command<'a>
    ensures { app_of result ≡ bare_app }
{
    Command::new(alloc, "cogent")
        .no_binary_name(true)
        .disable_help_flag(true)
        .disable_help_subcommand(true)
        .disable_version_flag(true)
        .subcommand_required(true)
}

/// The command line with its commands on a source alone.
fn on_sources<'a>(alloc: Global) -> Result<Command<'a>, AllocError>
    ensures { IfOk result (λ c. app_of c ≡ source_app) }
{
    bare(alloc)
        .subcommand(command(alloc, "check", &["file"])?)?
        .subcommand(command(alloc, "build", &["file", "text", "certificate"])?)
}

/// The command line with its commands on files.
fn on_files<'a>(alloc: Global) -> Result<Command<'a>, AllocError>
    ensures { IfOk result (λ c. app_of c ≡ file_app) }
{
    on_sources(alloc)?
        .subcommand(command(alloc, "recheck", &["file", "certificate"])?)?
        .subcommand(run(alloc)?)
}

/// The whole command line.
pub(crate) fn cogent<'a>(alloc: Global) -> Result<Command<'a>, AllocError>
    ensures { IfOk result (λ c. app_of c ≡ cogent_app) }
{
    on_files(alloc)?.subcommand(command(alloc, "gen", &["number"])?)
}
