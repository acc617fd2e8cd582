// What represents a value, which addresses it reaches, and what calls change.
ghost use Rattle.cg_heap_laws.specs.Laws.{ScalarsFillSlots, ValuesAreOne, FootprintsSuffice, FootprintsAreThere, AliasedIsNotApart, FramesCompose, FramesStandBeside, ObservedIsRepresented, ObservedIsRead, EscapingReadsNothing, SharedWritesNothing, RepresentedFits};

/// What represents a value of a type has as many scalars as the type has slots.
pub fn scalars_fill_slots()
    ensures { ScalarsFillSlots }
{}

/// Scalars represent one value of a type at most, where numbers stand for one value of an abstract type at most.
pub fn values_are_one()
    ensures { ValuesAreOne }
{}

/// Heaps that agree wherever a value is reached represent it by the same scalars, with the same footprints.
pub fn footprints_suffice()
    ensures { FootprintsSuffice }
{}

/// Each address that a value reaches has a cell, and isn't the null address.
pub fn footprints_are_there()
    ensures { FootprintsAreThere }
{}

/// Two boxed records at one address, of which one is written, are not apart.
pub fn aliased_is_not_apart()
    ensures { AliasedIsNotApart }
{}

/// Two changes of a heap, one behind the other, are one.
pub fn frames_compose()
    ensures { FramesCompose }
{}

/// A change leaves another part, which is there and apart from what is written, as it was and apart from what is written after.
pub fn frames_stand_beside()
    ensures { FramesStandBeside }
{}

/// What represents a value represents it observed.
pub fn observed_is_represented()
    ensures { ObservedIsRepresented }
{}

/// An observed value writes nothing, and reads what it wrote or read.
pub fn observed_is_read()
    ensures { ObservedIsRead }
{}

/// What may escape reads nothing.
pub fn escaping_reads_nothing()
    ensures { EscapingReadsNothing }
{}

/// What may be dropped or shared writes nothing.
pub fn shared_writes_nothing()
    ensures { SharedWritesNothing }
{}

/// A value that is represented at a lawful type fits it.
pub fn represented_fits()
    ensures { RepresentedFits }
{}
