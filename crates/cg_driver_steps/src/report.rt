// What is said, before it is printed.
ghost use Rattle.std.specs.Prelude.{string_bytes};
ghost use Rattle.cg_driver_steps.specs.Parts.{IsLine};

use crate::Status;

/// A status, and the bytes that are printed with it.
#[derive(Drop)]
pub struct Report {
    pub status: Status,
    pub text: Vec<u8>,
}

impl Report {
    /// The report of a text.
    pub fn of_text(status: Status, text: String) -> Report
        ensures { IsLine status (string_bytes text) result }
    {
        Report {
            status,
            text: text.into_bytes(),
        }
    }
}

/// A step of a command: it goes on with something, or the command ends with a report.
#[derive(Drop)]
pub enum Step<T> {
    Goes(T),
    Ends(Report),
}
