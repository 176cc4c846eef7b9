// Why a change wasn't applied.
use arti_rows::Refusal;
use std::alloc::AllocError;
use thiserror::Error;

/// Why a change wasn't applied.
#[derive(Debug, Drop, Error)]
pub enum ApplyFault {
    #[error("the change is refused")]
    Refused(Refusal),
    #[error("out of memory")]
    Memory,
}

impl From<AllocError> for ApplyFault {
    ghost use Rattle.std.specs.Prelude.{◌≡◌};
    ghost use Rattle.arti_catalog.specs.declared.fault.ApplyFault.TheVariants.{Memory};

    ghost from_gives = { λ _ e. e ≡ Memory };

    fn from(_error: AllocError) -> ApplyFault {
        ApplyFault::Memory
    }
}

impl From<Refusal> for ApplyFault {
    ghost use Rattle.std.specs.Prelude.{◌≡◌};
    ghost use Rattle.arti_catalog.specs.Judged.{fault_of};

    ghost from_gives = { λ r e. e ≡ fault_of r };

    fn from(refusal: Refusal) -> ApplyFault {
        match refusal {
            Refusal::Memory => ApplyFault::Memory,
            other => ApplyFault::Refused(other),
        }
    }
}
