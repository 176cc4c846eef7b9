// Why a text gives no properties, or no property keys.
use std::alloc::{AllocError, AllocFailed};
use thiserror::Error;

/// Why a text gives no properties, or no property keys.
#[derive(Clone, Copy, Debug, PartialEq, Eq, Error)]
pub enum PropsFault {
    #[error("bad properties")]
    BadProps,
    #[error("out of memory")]
    Memory,
}

impl From<AllocError> for PropsFault {
    ghost use Rattle.std.specs.Prelude.{◌≡◌};
    ghost use Rattle.arti_rows.specs.declared.props_fault.PropsFault.TheVariants.{Memory};

    ghost from_gives = { λ _ e. e ≡ Memory };

    fn from(_error: AllocError) -> PropsFault {
        PropsFault::Memory
    }
}

impl<T: Drop> From<AllocFailed<T>> for PropsFault {
    ghost use Rattle.std.specs.Prelude.{◌≡◌};
    ghost use Rattle.arti_rows.specs.declared.props_fault.PropsFault.TheVariants.{Memory};

    ghost from_gives = { λ _ e. e ≡ Memory };

    fn from(_error: AllocFailed<T>) -> PropsFault {
        PropsFault::Memory
    }
}
