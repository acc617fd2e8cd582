// What holds of all heap files without faults.
ghost use Rattle.cg_heaptext_laws.specs.Laws.{TextsAreSmall, TextsRepresent};

/// What a heap file without faults holds represents the argument's value, and its parts are apart (docs/LANGUAGE.md, "Heap files").
pub fn texts_represent()
    ensures { TextsRepresent }
{}

/// Every scalar that a heap file without faults holds fits a machine word, at a type of at most 1,024 nodes (docs/LANGUAGE.md, "Heap files").
pub fn texts_are_small()
    ensures { TextsAreSmall }
{}
