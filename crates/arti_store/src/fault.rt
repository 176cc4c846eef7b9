// Why a call on a store failed.
ghost use Rattle.std.specs.Prelude.{◌≡◌};

use arti_ground::Failed;
use arti_rows::Which;
use std::alloc::AllocError;
use thiserror::Error;

/// Why a store wasn't opened.
#[derive(Clone, Copy, Debug, PartialEq, Eq, Error)]
pub enum OpenFault {
    #[error("the files are no store")]
    NotAStore,
    #[error("the disk failed")]
    Device,
    #[error("out of memory")]
    Memory,
}

/// Why a change wasn't committed.
#[derive(Clone, Copy, Debug, PartialEq, Eq, Error)]
pub enum CommitFault {
    /// The commit of that number, counted from 1, has closed the store. It has to be opened again.
    #[error("the store is closed")]
    Closed(u64),
    #[error("a limit would be passed")]
    Full(Which),
    #[error("the disk failed")]
    Device,
    #[error("out of memory")]
    Memory,
}

/// Why a content wasn't read.
#[derive(Clone, Copy, Debug, PartialEq, Eq, Error)]
pub enum ContentFault {
    /// The commit of that number, counted from 1, has closed the store. It has to be opened again.
    #[error("the store is closed")]
    Closed(u64),
    #[error("the disk failed")]
    Device,
}

impl From<Failed> for OpenFault {
    ghost use Rattle.arti_store.specs.declared.fault.OpenFault.TheVariants.{Device};

    ghost from_gives = { λ _ e. e ≡ Device };

    fn from(_error: Failed) -> OpenFault {
        OpenFault::Device
    }
}

impl From<AllocError> for OpenFault {
    ghost use Rattle.arti_store.specs.declared.fault.OpenFault.TheVariants.{Memory};

    ghost from_gives = { λ _ e. e ≡ Memory };

    fn from(_error: AllocError) -> OpenFault {
        OpenFault::Memory
    }
}
