//! Why a text is no query.
ghost use Rattle.std.specs.Prelude.{◌≡◌};
ghost use Rattle.arti_aql_parse.specs.Fault.{fault_of};

use arti_aql_lex::LexFault;
use arti_rows::What;
use std::alloc::{AllocError, AllocFailed};
use thiserror::Error;

/// The first refusal of a text that is no query. Places are byte offsets in the text.
#[derive(Clone, Copy, Debug, PartialEq, Eq, Error)]
pub enum ParseFault {
    #[error("out of memory")]
    Memory,
    /// The text has more than 65,536 bytes.
    #[error("the query is too long")]
    QueryTooLong,
    /// There is no token where one begins.
    #[error("{0}")]
    Lex(LexFault),
    /// The token at this place, or the end there, isn't the part that should begin there.
    #[error("at {0} another part should begin")]
    Expected(u32, What),
    /// More than 32 braces and brackets are open at once.
    #[error("the query is too deep")]
    TooDeep,
}

/// Why tokens are no query.
#[derive(Drop)]
pub enum ReadFault {
    Memory,
    Lex(LexFault),
    Expected(u32, What),
    TooDeep,
}

/// The same as a refusal of the text.
pub fn fault_of(fault: ReadFault) -> ParseFault
    ensures { result ≡ fault_of fault }
{
    match fault {
        ReadFault::Memory => ParseFault::Memory,
        ReadFault::Lex(fault) => ParseFault::Lex(fault),
        ReadFault::Expected(place, part) => ParseFault::Expected(place, part),
        ReadFault::TooDeep => ParseFault::TooDeep,
    }
}

impl From<AllocError> for ReadFault {
    ghost use Rattle.std.specs.Prelude.{◌≡◌};
    ghost use Rattle.arti_aql_parse.specs.declared.fault.ReadFault.TheVariants.{Memory};

    ghost from_gives = { λ _ e. e ≡ Memory };

    fn from(_e: AllocError) -> ReadFault {
        ReadFault::Memory
    }
}

impl<T: Drop> From<AllocFailed<T>> for ReadFault {
    ghost use Rattle.std.specs.Prelude.{◌≡◌};
    ghost use Rattle.arti_aql_parse.specs.declared.fault.ReadFault.TheVariants.{Memory};

    ghost from_gives = { λ _ e. e ≡ Memory };

    fn from(_e: AllocFailed<T>) -> ReadFault {
        ReadFault::Memory
    }
}
