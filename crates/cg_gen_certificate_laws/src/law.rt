// What holds of the certificate of the generated source's kernel.
ghost use Rattle.cg_gen_certificate_laws.specs.Laws.{CertificateIsShort};

/// The text of the certificate of 4,096 functions at most is within its limit (docs/LANGUAGE.md, "Generator").
pub fn certificate_is_short()
    ensures { CertificateIsShort }
{}
