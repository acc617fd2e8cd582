// What the update semantics does, whatever the instances are.
ghost use Rattle.cg_update_laws.specs.Laws.{IteratorsCallSources};

/// What an iterator calls is a call of an instance of the source: the test that it is one always goes.
pub fn iterators_call_sources()
    ensures { IteratorsCallSources }
{}
