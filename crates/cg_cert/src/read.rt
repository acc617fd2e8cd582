// The loop over the bytes of a certificate.
ghost use Rattle.std.specs.Prelude.{◌≡◌};
ghost use Rattle.cg_cert.specs.Answers.{Answers};

use crate::reader::Reader;
use crate::{Cert, CertFault};
use std::alloc::Global;

/// Reads the text of a certificate (docs/LANGUAGE.md, "Certificates"): the certificate whose text the bytes are; or C1 with the number
/// of bytes before the first one that no text has there, all of them where a text isn't at its end; or `Memory` where memory is
/// wanting. It takes time in proportion to the bytes.
pub fn read_cert(alloc: Global, bytes: &[u8]) -> Result<Cert, CertFault>
    ensures { Answers bytes.now result }
{
    let mut reader = Reader::new(alloc)?;
    for (at, byte) in bytes.iter().enumerate() {
        reader.step(alloc, *byte)?;
        if !reader.is_open() {
            return Err(CertFault::C1(at));
        }
    }
    reader.finish(alloc).ok_or(CertFault::C1(bytes.len()))
}
