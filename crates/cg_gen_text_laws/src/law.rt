// What holds of every generated source.
ghost use Rattle.cg_gen_text_laws.specs.Laws.{SourceIsShort, SourceIsSpelled};

/// The source of so many functions spells its program (docs/LANGUAGE.md, "Generator").
pub fn source_is_spelled()
    ensures { SourceIsSpelled }
{}

/// The source of so many functions is no longer than a source may be (docs/LANGUAGE.md, "Generator").
pub fn source_is_short()
    ensures { SourceIsShort }
{}
