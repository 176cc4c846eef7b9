// Why a text is no key.
use std::alloc::AllocError;
use thiserror::Error;

/// Why a repository key and a path are no item's key.
#[derive(Clone, Copy, Debug, PartialEq, Eq, Error)]
pub enum KeyFault {
    /// A rule of characters is broken, or a segment is empty.
    #[error("a bad name")]
    BadName,
    /// A rule of length is broken.
    #[error("a name that is too long")]
    TooLong,
    #[error("out of memory")]
    Memory,
}

impl From<AllocError> for KeyFault {
    ghost use Rattle.std.specs.Prelude.{◌≡◌};
    ghost use Rattle.arti_rows.specs.declared.fault.KeyFault.TheVariants.{Memory};

    ghost from_gives = { λ _ e. e ≡ Memory };

    fn from(_error: AllocError) -> KeyFault {
        KeyFault::Memory
    }
}
