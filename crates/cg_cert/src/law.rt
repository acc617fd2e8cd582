// The laws of certificates.
ghost use Rattle.cg_cert.specs.Laws.{OneByte, OneCertificate, PrintedIsRead, KeptIsMarked, CheckedIsRead};

/// Bytes are the text of one certificate at most.
pub fn one_certificate()
    ensures { OneCertificate }
{}

/// Bytes that are the text of no certificate are refused at one byte.
pub fn one_byte()
    ensures { OneByte }
{}

/// What is printed is read: the text of a certificate whose names and mark strings can be written is one of that certificate.
pub fn printed_is_read()
    ensures { PrintedIsRead }
{}

/// The mark strings of the derivations that are kept of a source can be written: each is as long as its context, in which stands the
/// argument at least.
pub fn kept_is_marked()
    ensures { KeptIsMarked }
{}

/// So the text of a checked source's certificate is one of that certificate, where the names of its functions can be written.
pub fn checked_is_read()
    ensures { CheckedIsRead }
{}
