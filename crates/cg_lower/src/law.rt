// The laws of the C program of a list of instances.
ghost use Rattle.cg_lower.specs.Laws.{LoweredIsPrintable, LoweredSimulates};

/// The C program of a list of instances simulates the update semantics, where C has numbers enough for all that it is of: where an
/// instance with a body gives a result at cost k on a heap, its C function ends within 32k + 32 steps, with the same scalars, heap, and
/// addresses of the cells that were made and freed.
pub fn lowered_simulates()
    ensures { LoweredSimulates }
{}

/// The C program of a list of instances can be printed, where C has numbers enough for all that it is of, no body is deeper than 2,048,
/// and no record is without fields.
pub fn lowered_is_printable()
    ensures { LoweredIsPrintable }
{}
