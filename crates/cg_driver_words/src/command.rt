// The commands.
ghost use Rattle.std.specs.Prelude.{◌≡◌, IfOk};
ghost use Rattle.std.specs.Option.{option_map};
ghost use Rattle.clap.specs.Words.{fault_of, first_of, found_of, rows_of, subcommand_of};
ghost use Rattle.cg_driver_words.specs.Apps.{cogent_app};
ghost use Rattle.cg_driver_words.specs.Matches.{build_in, check_in, command_from, command_in, gen_in, recheck_in, run_in};
ghost use Rattle.cg_driver_words.specs.Views.{command_view};
ghost use Rattle.cg_driver_words.specs.Words.{command_of, texts, IsInRange};

use crate::app::cogent;
use crate::numbers::number_in;
use cg_base::Memory;
use clap::ArgMatches;
use clap::error::ErrorKind;
use std::alloc::Global;

/// The number of steps where none is asked for.
const DEFAULT_STEPS: u64 = 10_000_000;

/// The greatest number of steps, 2^40.
const MOST_STEPS: u64 = 1_099_511_627_776;

/// The greatest number of functions that `gen` makes.
const MOST_MADE: u64 = 4096;

/// A command: `check FILE`, `build FILE CFILE CERTFILE`, whose names are apart, `recheck FILE CERTFILE`, `run FILE ENTRY HEAPFILE [--steps N]`, or
/// `gen N` (docs/LANGUAGE.md, "Commands").
#[derive(Clone, Copy)]
pub enum Command<'a> {
    Check {
        file: &'a str,
    },
    Build {
        file: &'a str,
        text: &'a str,
        certificate: &'a str,
    },
    Recheck {
        file: &'a str,
        certificate: &'a str,
    },
    Run {
        file: &'a str,
        entry: &'a str,
        heap: &'a str,
        steps: u64,
    },
    Gen {
        number: u64,
    },
}

/// The value that clap found under an id.
fn text_of<'a>(matches: &ArgMatches<'a>, id: &str) -> Option<&'a str>
    ensures { option_map (λ s. s.now) result ≡ first_of id.now (rows_of (found_of matches.now)) }
{
    matches.get_str(id)
}

/// `check`, by what clap found.
fn read_check<'a>(matches: &ArgMatches<'a>) -> Option<Command<'a>>
    ensures { option_map command_view result ≡ check_in (rows_of (found_of matches.now)) }
{
    match text_of(matches, "file") {
        Some(file) => Some(Command::Check { file }),
        None => None,
    }
}

/// `build`, by what clap found.
fn read_build<'a>(matches: &ArgMatches<'a>) -> Option<Command<'a>>
    ensures { option_map command_view result ≡ build_in (rows_of (found_of matches.now)) }
{
    let names = (
        text_of(matches, "file"),
        text_of(matches, "text"),
        text_of(matches, "certificate"),
    );
    let (Some(file), Some(text), Some(certificate)) = names else {
        return None;
    };
    if file == text || file == certificate || text == certificate {
        return None;
    }
    Some(Command::Build {
        file,
        text,
        certificate,
    })
}

/// `recheck`, by what clap found.
fn read_recheck<'a>(matches: &ArgMatches<'a>) -> Option<Command<'a>>
    ensures { option_map command_view result ≡ recheck_in (rows_of (found_of matches.now)) }
{
    let names = (text_of(matches, "file"), text_of(matches, "certificate"));
    let (Some(file), Some(certificate)) = names else {
        return None;
    };
    Some(Command::Recheck { file, certificate })
}

/// `run`, by what clap found.
fn read_run<'a>(matches: &ArgMatches<'a>) -> Option<Command<'a>>
    ensures { option_map command_view result ≡ run_in (rows_of (found_of matches.now)) }
{
    let names = (
        text_of(matches, "file"),
        text_of(matches, "entry"),
        text_of(matches, "heap"),
    );
    let (Some(file), Some(entry), Some(heap)) = names else {
        return None;
    };
    let steps = match text_of(matches, "steps") {
        Some(text) => number_in(MOST_STEPS, text.as_bytes())?,
        None => DEFAULT_STEPS,
    };
    Some(Command::Run {
        file,
        entry,
        heap,
        steps,
    })
}

/// `gen`, by what clap found.
fn read_gen<'a>(matches: &ArgMatches<'a>) -> Option<Command<'a>>
    ensures { option_map command_view result ≡ gen_in (rows_of (found_of matches.now)) }
{
    let text = text_of(matches, "number")?;
    let number = number_in(MOST_MADE, text.as_bytes())?;
    Some(Command::Gen { number })
}

/// The command with this name, by what clap found.
fn read<'a>(name: &str, matches: &ArgMatches<'a>) -> Option<Command<'a>>
    ensures { option_map command_view result ≡ command_in name.now (rows_of (found_of matches.now)) }
{
    if name == "check" {
        read_check(matches)
    } else if name == "build" {
        read_build(matches)
    } else if name == "recheck" {
        read_recheck(matches)
    } else if name == "run" {
        read_run(matches)
    } else {
        read_gen(matches)
    }
}

/// What clap's answer to the words calls for.
fn answer<'a>(alloc: Global, words: &'a [String]) -> Result<Option<Command<'a>>, Memory>
    ensures { IfOk result (λ c. option_map command_view c ≡ command_from (fault_of cogent_app (texts words.now)) (subcommand_of cogent_app (texts words.now))) }
{
    let command = cogent(alloc)?;
    match command.try_get_matches_from(words) {
        Ok(matches) => match matches.subcommand() {
            Some((name, inner)) => Ok(read(name, inner)),
            None => Ok(None),
        },
        Err(error) => match error.kind() {
            ErrorKind::OutOfMemory => Err(Memory),
            _ => Ok(None),
        },
    }
}

/// The command that the words behind the program's name call for; None where they are no command, as docs/LANGUAGE.md,
/// "Commands", says. The one error is want of memory.
pub fn read_words<'a>(alloc: Global, words: &'a [String]) -> Result<Option<Command<'a>>, Memory>
    ensures asks { IfOk result (λ c. option_map command_view c ≡ command_of (texts words.now)) }
    ensures range { IfOk result (λ c. IsInRange (option_map command_view c)) }
{
    answer(alloc, words)
}
