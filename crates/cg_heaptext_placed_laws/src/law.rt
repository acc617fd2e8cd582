// The cells of a heap file without faults can be put into a store.
ghost use Rattle.cg_heaptext_placed_laws.specs.Laws.{TextsCanBePlaced};

/// The cells of a heap file without faults, of at most 16 MiB and at a type of at most 1,024 nodes, can be put into a store one by one
/// (docs/LANGUAGE.md, "Heap files").
pub fn texts_can_be_placed()
    ensures { TextsCanBePlaced }
{}
