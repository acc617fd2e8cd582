// The library on heaps, and steps.
ghost use Rattle.cg_heap_laws.specs.LibraryLaws.{LibraryDoes, ArraysAreThere, AnswersSuffice, StepsAreFrames, StepsKeepFine, AddressesRise, GoodArgumentsSuffice};

/// What a function of the library gives represents what it gives on values, by a step.
pub fn library_does()
    ensures { LibraryDoes }
{}

/// Where an argument is represented, the array that a function of the library reads is there.
pub fn arrays_are_there()
    ensures { ArraysAreThere }
{}

/// Each cell that a function of the library makes takes an answer of the allocator.
pub fn answers_suffice()
    ensures { AnswersSuffice }
{}

/// A step is a frame of what it writes.
pub fn steps_are_frames()
    ensures { StepsAreFrames }
{}

/// After a step all is fine again.
pub fn steps_keep_fine()
    ensures { StepsKeepFine }
{}

/// The highest address rises by one for each cell that the library makes.
pub fn addresses_rise()
    ensures { AddressesRise }
{}

/// Type arguments that typing lets through are what the laws of the library ask.
pub fn good_arguments_suffice()
    ensures { GoodArgumentsSuffice }
{}
