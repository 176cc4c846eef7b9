// Why a document isn't what it should be.
use arti_rows::Text;
use std::alloc::AllocError;
use thiserror::Error;

/// Why a document, or a member of it, isn't what it should be. The texts are the members' names.
#[derive(Debug, Drop, Error)]
pub enum JsonFault {
    #[error("the body is no JSON text")]
    NotJson,
    /// For readers of whole documents: a member that has to be there isn't.
    #[error("a member is missing")]
    Missing(Text),
    #[error("a member of the wrong kind")]
    WrongKind(Text),
    /// A text of more than 4,096 bytes.
    #[error("a text that is too long")]
    TooLong(Text),
    #[error("out of memory")]
    Memory,
}

impl From<AllocError> for JsonFault {
    ghost use Rattle.std.specs.Prelude.{◌≡◌};
    ghost use Rattle.arti_json.specs.declared.fault.JsonFault.TheVariants.{Memory};

    ghost from_gives = { λ _ e. e ≡ Memory };

    fn from(_error: AllocError) -> JsonFault {
        JsonFault::Memory
    }
}
