// Why a definition is refused.
use arti_rows::{Seq, Text};
use std::alloc::AllocError;
use thiserror::Error;

/// Why a definition is refused.
#[derive(Debug, Drop, Error)]
pub enum RepoFault {
    /// The key, or the key of the remote's cache, is that of a definition or of a cache.
    #[error("the key is taken")]
    Taken(Text),
    /// The definition that is to be replaced isn't there.
    #[error("no such repository")]
    NoRepo(Text),
    /// The definition that is to be replaced has another class.
    #[error("the definition has another class")]
    ClassChange,
    /// A member, or the default, has no definition.
    #[error("a member that isn't defined")]
    UnknownMember(Text),
    /// The keys from the definition's own through its members back to it.
    #[error("a virtual repository that holds itself")]
    Cycle(Seq<Text>),
    /// The default is no local repository.
    #[error("the repository is no local one")]
    NotLocal(Text),
    /// There would be more definitions than the limit.
    #[error("too many repositories")]
    Full,
    #[error("out of memory")]
    Memory,
}

impl From<AllocError> for RepoFault {
    ghost use Rattle.std.specs.Prelude.{◌≡◌};
    ghost use Rattle.arti_repos.specs.declared.fault.RepoFault.TheVariants.{Memory};

    ghost from_gives = { λ _ e. e ≡ Memory };

    fn from(_error: AllocError) -> RepoFault {
        RepoFault::Memory
    }
}
