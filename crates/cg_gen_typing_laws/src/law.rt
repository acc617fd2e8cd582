// What holds of the kernel of the generated source.
ghost use Rattle.cg_gen_typing_laws.specs.Laws.{CoresAreDerived, InstancesAreWithin, KernelIsAccepted, TypesAreSmall};

/// The cores of the kernel of fewer than 2^32 functions erase to its bodies, and the typing rules derive each (docs/LANGUAGE.md, "Generator").
pub fn cores_are_derived()
    ensures { CoresAreDerived }
{}

/// The kernel of fewer than 2^32 functions is accepted (docs/LANGUAGE.md, "Generator").
pub fn kernel_is_accepted()
    ensures { KernelIsAccepted }
{}

/// No type of a node of the kernel has more nodes than a type may have (docs/LANGUAGE.md, "Generator").
pub fn types_are_small()
    ensures { TypesAreSmall }
{}

/// The instances of the kernel of 4,096 functions at most are its functions, in their order, within all limits (docs/LANGUAGE.md, "Generator").
pub fn instances_are_within()
    ensures { InstancesAreWithin }
{}
