// What holds of the program of each number.
ghost use Rattle.cg_gen_names_laws.specs.Laws.{EntryIsLast, KernelIsMade, LimitsAreKept, NamesAreInOrder};

/// The names of a generated program are in order (docs/LANGUAGE.md, "Generator").
pub fn names_are_in_order()
    ensures { NamesAreInOrder }
{}

/// Its kernel is that of so many functions (docs/LANGUAGE.md, "Generator").
pub fn kernel_is_made()
    ensures { KernelIsMade }
{}

/// It is within the limits on what is written, and on depth (docs/LANGUAGE.md, "Generator").
pub fn limits_are_kept()
    ensures { LimitsAreKept }
{}

/// The function of its entry is the last (docs/LANGUAGE.md, "Generator").
pub fn entry_is_last()
    ensures { EntryIsLast }
{}
