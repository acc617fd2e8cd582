// Abstract types.
#![tactic(auto, unfolding(cg_base::specs::Types::to_taus), using(crate::proofs::Hosts::host_steps, std::proofs::lemmas::Grind::common_steps))]

ghost use Rattle.std.specs.Prelude.{◌≡◌, IfOk, map};
ghost use Rattle.cg_base.specs.Types.{to_taus, type_of};
ghost use Rattle.cg_lower_def.specs.CTypes.{element as element_of};
ghost use Rattle.cg_lower_tables.specs.Plain.{host_of, host_plain, host_struct};

use cg_base::{Items, Memory, Name, Sigil, Ty, Word};
use std::alloc::Global;

// What C sees of an abstract type: that of the allocator, an array of words, or one of the user's.
#[derive(Clone, Copy)]
pub(crate) enum Host {
    System,
    Array(Word),
    Foreign,
}

// What C sees of the abstract type of a name with these arguments.
pub(crate) fn find_host(name: &Name, args: &Items<Ty>) -> Host
    ensures { result ≡ host_of name.now (to_taus (map type_of args.now)) }
{
    if name.bytes() == b"SysState".as_slice() {
        Host::System
    } else if name.bytes() == b"WordArray".as_slice() {
        Host::Array(element(args))
    } else {
        Host::Foreign
    }
}

// The word of an array's elements.
fn element(args: &Items<Ty>) -> Word
    ensures { result ≡ element_of (to_taus (map type_of args.now)) }
{
    match args.as_slice() {
        [Ty::Word(word)] => *word,
        _ => Word::U8,
    }
}

// The name of the struct that C points to for it.
pub(crate) fn struct_of(alloc: Global, host: Host) -> Result<Name, Memory>
    ensures { IfOk result (λ name. name ≡ host_struct host) }
{
    match host {
        Host::System => Name::new(alloc, b"SysState"),
        Host::Array(Word::U8) => Name::new(alloc, b"W8"),
        Host::Array(Word::U16) => Name::new(alloc, b"W16"),
        Host::Array(Word::U32) => Name::new(alloc, b"W32"),
        Host::Array(Word::U64) => Name::new(alloc, b"W64"),
        Host::Foreign => Name::new(alloc, b"Foreign"),
    }
}

// The type that stands for all that C sees so.
pub(crate) fn type_for(alloc: Global, host: Host) -> Result<Ty, Memory>
    ensures { IfOk result (λ ty. type_of ty ≡ host_plain host) }
{
    let mut args = Items::new(alloc);
    let name = match host {
        Host::System => Name::new(alloc, b"SysState")?,
        Host::Array(word) => {
            args.push(Ty::Word(word))?;
            Name::new(alloc, b"WordArray")?
        }
        Host::Foreign => Name::new(alloc, b"Foreign")?,
    };
    Ok(Ty::Abs(name, args, Sigil::W))
}
