// The laws of what is checked, and of splits.
ghost use Rattle.cg_typing.specs.Holds.{CheckedSourcesHold};
ghost use Rattle.cg_typing.specs.Laws.{SplitsLoseNothing, LinearGoesOneWay};

/// Whoever holds a checked source knows that its kernel is lawful, and that each body's core and derivation are kept.
pub fn checked_sources_hold()
    ensures { CheckedSourcesHold }
{}

/// A split loses no entry: each present entry is present on one side at least.
pub fn splits_lose_nothing()
    ensures { SplitsLoseNothing }
{}

/// Without observers an entry that can't be shared is on one side alone.
pub fn linear_goes_one_way()
    ensures { LinearGoesOneWay }
{}
