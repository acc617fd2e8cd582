// The text of a C program.
ghost use Rattle.std.specs.Prelude.{◌≡◌, IfOk};
ghost use Rattle.cg_ctree.specs.Spells.{CSpells, IsPrintable};
ghost use Rattle.cg_ctree.specs.Trees.{program_of};
ghost use Rattle.cg_ctree.specs.Tokens.{first_line};
ghost use Rattle.cg_ctext.specs.Printed.{printed, BeginsWith};

use crate::declaration::structs;
use crate::function::functions;
use crate::put::put;
use cg_base::Memory;
use cg_ctree::CProgram;
use std::alloc::Global;

// The text that is printed of a program.
fn text_of(alloc: Global, program: &CProgram) -> Result<Vec<u8>, Memory>
    ensures { IfOk result (λ text. text.items ≡ printed (program_of program.now)) }
{
    let mut text = Vec::new(alloc);
    put(&mut text, b"#include <stdint.h>\n#include \"cogent.h\"")?;
    structs(&mut text, program.structs.as_slice())?;
    functions(alloc, &mut text, program.funs.as_slice())?;
    put(&mut text, b"\n")?;
    Ok(text)
}

/// A text of a program that can be printed (docs/LANGUAGE.md, "The C text"). Nothing stands before the first include line. The
/// one error is want of memory.
pub fn print_c(alloc: Global, program: &CProgram) -> Result<Vec<u8>, Memory>
    requires printable { IsPrintable (program_of program.now) }
    ensures spells { IfOk result (λ text. CSpells text.items (program_of program.now)) }
    ensures exactly { IfOk result (λ text. text.items ≡ printed (program_of program.now)) }
    ensures begins { IfOk result (λ text. BeginsWith first_line text.items) }
{
    let text = text_of(alloc, program)?;
    Ok(text)
}
