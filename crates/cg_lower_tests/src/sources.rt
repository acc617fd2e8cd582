// Sources, lowered.
use cg_check_tests::checked_source;
use cg_ctree::CProgram;
use cg_inst::instances;
use cg_lower::lower;
use cg_mono::mono;
use std::alloc::Global;
use std::process::Abort;
use std::test::Fail;

/// The C program of a source's instances.
pub(crate) fn lowered(rt: &impl Abort, alloc: Global, source: &str) -> Result<CProgram, Fail> {
    let checked = checked_source(alloc, source)?;
    match instances(alloc, &checked) {
        Ok(list) => {
            let copies = mono(alloc, &checked, &list)?;
            Ok(lower(alloc, &copies)?)
        }
        Err(_) => panic!(rt; "a limit is passed"),
    }
}
