// Why a source isn't parsed.
ghost use Rattle.std.specs.Prelude.{◌≡◌};
ghost use Rattle.cg_parser.specs.Answers.{lexer_fault};
ghost use Rattle.cg_parser.specs.declared.fault.ParseFault.TheVariants.{Memory as NoMemory};

use cg_base::{Memory, Place};
use cg_lexer::LexFault;
use thiserror::Error;

/// Why bytes are no program within the depth: S1, a byte begins no token; S2, a comment that begins there isn't closed; S3, no
/// program goes on with the token there; S4, a bar stands there at a column of no open match; a program is spelled whose depth
/// passes 1,024; or memory is wanting.
#[derive(Clone, Copy, Debug, PartialEq, Eq, Error)]
pub enum ParseFault {
    #[error("unknown byte")]
    S1(Place),
    #[error("comment not closed")]
    S2(Place),
    #[error("unexpected token")]
    S3(Place),
    #[error("bar in no open match")]
    S4(Place),
    #[error("nested too deeply")]
    Nesting,
    #[error("out of memory")]
    Memory,
}

impl From<Memory> for ParseFault {
    ghost from_gives = { λ _ fault. fault ≡ NoMemory };

    fn from(_: Memory) -> ParseFault {
        ParseFault::Memory
    }
}

impl From<LexFault> for ParseFault {
    ghost from_gives = { λ lexed fault. fault ≡ lexer_fault lexed };

    fn from(fault: LexFault) -> ParseFault {
        match fault {
            LexFault::UnknownByte(place) => ParseFault::S1(place),
            LexFault::OpenComment(place) => ParseFault::S2(place),
        }
    }
}
