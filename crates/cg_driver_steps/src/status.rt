// How a call ends.
ghost use Rattle.std.specs.Prelude.{◌≡◌};
ghost use Rattle.cg_driver_steps.specs.Codes.{code_of};

/// How a call of `cogent` ends: docs/LANGUAGE.md, "Statuses", gives the cause of each.
#[derive(Clone, Copy, Debug, PartialEq, Eq)]
pub enum Status {
    Done,
    Refused,
    Usage,
    ReadFault,
    WriteFault,
    Memory,
    StepLimit,
    HeapRefused,
    CertRefused,
    TooLarge,
}

impl Status {
    /// The exit code of the program, 0 to 9 in the order above.
    pub fn code(self) -> u8
        ensures { result ≡ code_of self }
    {
        self as u8
    }
}
