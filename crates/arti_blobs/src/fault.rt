// Why a call on contents failed.
ghost use Rattle.std.specs.Prelude.{◌≡◌};

use arti_ground::Failed;
use std::alloc::AllocError;
use thiserror::Error;

/// Why a content wasn't staged or read.
#[derive(Clone, Copy, Debug, PartialEq, Eq, Error)]
pub enum StageFault {
    #[error("the content would pass its limit")]
    TooLarge,
    #[error("the disk failed")]
    Device,
}

/// Why a staged content wasn't kept.
#[derive(Clone, Copy, Debug, PartialEq, Eq, Error)]
pub enum KeepFault {
    #[error("the kept contents would pass their limit")]
    Full,
    #[error("out of memory")]
    Memory,
}

impl From<Failed> for StageFault {
    ghost use Rattle.arti_blobs.specs.declared.fault.StageFault.TheVariants.{Device};

    ghost from_gives = { λ _ e. e ≡ Device };

    fn from(_error: Failed) -> StageFault {
        StageFault::Device
    }
}

impl From<AllocError> for KeepFault {
    ghost use Rattle.arti_blobs.specs.declared.fault.KeepFault.TheVariants.{Memory};

    ghost from_gives = { λ _ e. e ≡ Memory };

    fn from(_error: AllocError) -> KeepFault {
        KeepFault::Memory
    }
}
