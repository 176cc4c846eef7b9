// Why a call on a journal failed.
ghost use Rattle.std.specs.Prelude.{◌≡◌};

use arti_ground::Failed;
use std::alloc::AllocError;
use thiserror::Error;

/// Why a body has no frame.
#[derive(Clone, Copy, Debug, PartialEq, Eq, Error)]
pub enum FrameFault {
    #[error("the body has more than 67108864 bytes")]
    TooLong,
    #[error("the body is empty")]
    Empty,
    #[error("out of memory")]
    Memory,
}

/// Why a body wasn't appended.
#[derive(Clone, Copy, Debug, PartialEq, Eq, Error)]
pub enum AppendFault {
    #[error("the journal would pass its limit")]
    Full,
    #[error("the disk failed")]
    Device,
}

/// Why a journal wasn't opened.
#[derive(Clone, Copy, Debug, PartialEq, Eq, Error)]
pub enum JournalFault {
    #[error("the file is no journal")]
    NotAJournal,
    #[error("the disk failed")]
    Device,
    #[error("out of memory")]
    Memory,
}

impl From<AllocError> for FrameFault {
    ghost use Rattle.arti_journal.specs.declared.fault.FrameFault.TheVariants.{Memory};

    ghost from_gives = { λ _ e. e ≡ Memory };

    fn from(_error: AllocError) -> FrameFault {
        FrameFault::Memory
    }
}

impl From<Failed> for AppendFault {
    ghost use Rattle.arti_journal.specs.declared.fault.AppendFault.TheVariants.{Device};

    ghost from_gives = { λ _ e. e ≡ Device };

    fn from(_error: Failed) -> AppendFault {
        AppendFault::Device
    }
}

impl From<Failed> for JournalFault {
    ghost use Rattle.arti_journal.specs.declared.fault.JournalFault.TheVariants.{Device};

    ghost from_gives = { λ _ e. e ≡ Device };

    fn from(_error: Failed) -> JournalFault {
        JournalFault::Device
    }
}

impl From<AllocError> for JournalFault {
    ghost use Rattle.arti_journal.specs.declared.fault.JournalFault.TheVariants.{Memory};

    ghost from_gives = { λ _ e. e ≡ Memory };

    fn from(_error: AllocError) -> JournalFault {
        JournalFault::Memory
    }
}
