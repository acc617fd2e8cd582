// What holds of all heap files.
ghost use Rattle.cg_heaptext_parser.specs.Laws.{OneHeap};

/// Bytes spell one heap file at most.
pub fn one_heap()
    ensures { OneHeap }
{}
