// What the words ask for.
ghost use Rattle.cg_driver_steps.specs.World.{world};
ghost use Rattle.cg_driver_steps.specs.Parts.{Concludes};
ghost use Rattle.cg_driver.specs.Commands.{Judges, asked as script_asked};
ghost use Rattle.cg_driver.specs.Externs.{no_extern};

use crate::build::{Named, build_file};
use crate::check::check_file;
use crate::made::make_and_run;
use crate::recheck::recheck_file;
use crate::run::{Asked, run_file};
use cg_base::Memory;
use cg_driver_lines::usage;
use cg_driver_steps::Report;
use cg_driver_words::{Command, read_words};
use cg_outside::Files;
use std::alloc::Global;

/// Does what the words ask for, up to what is printed.
pub(crate) fn plan<F: Files>(
    alloc: Global,
    words: &[String],
    files: &mut F,
) -> Result<Report, Memory>
    ensures { Concludes Judges (script_asked no_extern words.now).line (script_asked no_extern words.now).steps (script_asked no_extern words.now).start
        (world (F.held files.old) (F.failed_reads files.old) (F.failed_writes files.old))
        (world (F.held files.new) (F.failed_reads files.new) (F.failed_writes files.new)) result }
{
    match read_words(alloc, words) {
        Err(_) => Err(Memory),
        Ok(None) => usage(alloc),
        Ok(Some(Command::Check { file })) => check_file(alloc, file, files),
        Ok(
            Some(
                Command::Build {
                    file,
                    text,
                    certificate,
                },
            ),
        ) => {
            let names = Named {
                file,
                text,
                certificate,
            };
            build_file(alloc, &names, files)
        }
        Ok(Some(Command::Recheck { file, certificate })) => {
            recheck_file(alloc, file, certificate, files)
        }
        Ok(
            Some(
                Command::Run {
                    file,
                    entry,
                    heap,
                    steps,
                },
            ),
        ) => {
            let asked = Asked {
                file,
                entry,
                heap,
                steps,
            };
            run_file(alloc, &asked, files)
        }
        Ok(Some(Command::Gen { number })) => make_and_run(alloc, number as u32),
    }
}
