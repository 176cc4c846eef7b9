// Why a key is not put, or a row not moved.
use arti_rows::ItemKey;
use std::alloc::AllocError;
use thiserror::Error;

/// Why a key is not put, or a row not moved.
#[derive(Debug, Drop, Error)]
pub enum TreeFault {
    /// A folder above the key would be this file.
    #[error("a file is above")]
    FileAbove(ItemKey),
    /// The key is there already.
    #[error("the key is taken")]
    Taken,
    /// There would be more rows than the limit.
    #[error("the tree is full")]
    Full,
    #[error("out of memory")]
    Memory,
}

impl From<AllocError> for TreeFault {
    ghost use Rattle.std.specs.Prelude.{◌≡◌};
    ghost use Rattle.arti_tree.specs.declared.fault.TreeFault.TheVariants.{Memory};

    ghost from_gives = { λ _ e. e ≡ Memory };

    fn from(_error: AllocError) -> TreeFault {
        TreeFault::Memory
    }
}
