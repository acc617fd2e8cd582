// What holds of all heap files, and of all bytes that are none.
ghost use Rattle.cg_heaptext_fault_laws.specs.Laws.{CutIsNoText, FaultIsNoText, OneCut, OneFault, OneText};

/// Bytes that are a heap file for a type hold one list of cells, one argument and one value there (docs/LANGUAGE.md, "Heap files").
pub fn one_text()
    ensures { OneText }
{}

/// Bytes have H1 on one line at most (docs/LANGUAGE.md, "Heap files").
pub fn one_cut()
    ensures { OneCut }
{}

/// Bytes with H1 spell no heap file, so that they are none for any type and have no other fault (docs/LANGUAGE.md, "Heap files").
pub fn cut_is_no_text()
    ensures { CutIsNoText }
{}

/// Bytes with a fault at a type are no heap file for it (docs/LANGUAGE.md, "Heap files").
pub fn fault_is_no_text()
    ensures { FaultIsNoText }
{}

/// Of H2 to H7 bytes have one first fault at most at a type, on one line (docs/LANGUAGE.md, "Heap files").
pub fn one_fault()
    ensures { OneFault }
{}
