// Why a query has no reply.
use std::alloc::AllocError;
use thiserror::Error;

/// Why a query has no reply.
#[derive(Clone, Copy, Debug, Error)]
pub enum ReplyFault {
    /// Its text would have more than 67,108,864 bytes.
    #[error("the reply is too large")]
    ReplyTooLarge,
    #[error("out of memory")]
    Memory,
}

impl From<AllocError> for ReplyFault {
    ghost use Rattle.std.specs.Prelude.{◌≡◌};
    ghost use Rattle.arti_aql_reply.specs.declared.fault.ReplyFault.TheVariants.{Memory};

    ghost from_gives = { λ _ e. e ≡ Memory };

    fn from(_error: AllocError) -> ReplyFault {
        ReplyFault::Memory
    }
}
