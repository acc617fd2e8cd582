// Certificates of checked sources: printed, read back, and judged.
use crate::sources::{BUMP, BUMP_CERTIFICATE};
use cg_cert::{Cert, CertFault, print_cert, read_cert};
use cg_certcheck::recheck;
use cg_check_tests::{checked_source, kernel_in};
use std::alloc::Global;
use std::process::Abort;
use std::test::Fail;

/// The certificate of a text.
fn cert_in(rt: &impl Abort, alloc: Global, text: &str) -> Result<Cert, Fail> {
    match read_cert(alloc, text.as_bytes()) {
        Ok(cert) => Ok(cert),
        Err(_) => panic!(rt; "not the text of a certificate"),
    }
}

#[test]
fn certificates_are_printed(rt: HostRuntime) -> Result<(), Fail> {
    let alloc = rt.alloc();
    let bump = checked_source(alloc, BUMP)?;
    let text = print_cert(alloc, &bump)?;
    assert_eq!(rt; text.as_slice(), BUMP_CERTIFICATE.as_bytes());
    let empty = checked_source(alloc, "")?;
    let text = print_cert(alloc, &empty)?;
    assert_eq!(rt; text.as_slice(), b"cogent certificate 1\nend\n".as_slice());
    Ok(())
}

#[test]
fn certificates_are_judged(rt: HostRuntime) -> Result<(), Fail> {
    let alloc = rt.alloc();
    let cert = cert_in(&rt, alloc, BUMP_CERTIFICATE)?;
    let kernel = kernel_in(alloc, BUMP)?;
    match recheck(alloc, kernel, &cert) {
        Ok(checked) => assert!(rt; checked.core(0).is_some()),
        Err(_) => panic!(rt; "it spells a derivation"),
    }
    let other = kernel_in(alloc, "bump : U8 -> U8\nbump x = x\n")?;
    match recheck(alloc, other, &cert) {
        Err(CertFault::C2(node)) => assert_eq!(rt; node, 1),
        _ => panic!(rt; "its first node is none of this source"),
    }
    Ok(())
}
