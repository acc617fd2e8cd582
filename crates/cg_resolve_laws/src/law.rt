//! The law, the contract of a function with nothing in it.
ghost use Rattle.cg_resolve_laws.specs.Laws.{DesugaredIsLawful};

/// Names that are in order make a lawful kernel.
pub fn desugared_is_lawful()
    ensures { DesugaredIsLawful }
{}
