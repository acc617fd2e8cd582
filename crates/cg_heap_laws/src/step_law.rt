// Steps: one behind the other, beside what they leave alone, and as changes of one cell.
ghost use Rattle.cg_heap_laws.specs.StepLaws.{StepsFollow, StepsStandBeside, PartsAreFine, NothingIsAStep, WritesAreSteps, FreesAreSteps, MakesAreSteps, FreedIsExact, HeldIsFine};

/// Steps follow each other, with what each made and freed.
pub fn steps_follow()
    ensures { StepsFollow }
{}

/// A step of a part, beside the rest, is a step of the whole, and leaves the rest as it was.
pub fn steps_stand_beside()
    ensures { StepsStandBeside }
{}

/// Both a part and the rest begin where all is fine.
pub fn parts_are_fine()
    ensures { PartsAreFine }
{}

/// Where nothing is done, the same may be written, and no more be read.
pub fn nothing_is_a_step()
    ensures { NothingIsAStep }
{}

/// An own cell is written by a step.
pub fn writes_are_steps()
    ensures { WritesAreSteps }
{}

/// An own cell is freed by a step.
pub fn frees_are_steps()
    ensures { FreesAreSteps }
{}

/// A cell is made above all others by a step.
pub fn makes_are_steps()
    ensures { MakesAreSteps }
{}

/// What a step freed has no repeats, and is exactly what was written or made and isn't written any more.
pub fn freed_is_exact()
    ensures { FreedIsExact }
{}

/// What is represented, apart, and in a heap without cells above its highest address is fine.
pub fn held_is_fine()
    ensures { HeldIsFine }
{}
