//! Why a query isn't typed.
use arti_rows::Text;
use std::alloc::{AllocError, AllocFailed};
use thiserror::Error;

/// The first fault of a query that has a right form. The texts are what the query names.
#[derive(Drop, Debug, Error)]
pub enum TypeFault {
    #[error("out of memory")]
    Memory,
    /// Rows of this domain aren't found.
    #[error("no such domain")]
    NoDomain(Text),
    /// The path leads to no field.
    #[error("no such field")]
    NoField(Text),
    /// The field at the path isn't tested in this way.
    #[error("the field doesn't take the operator")]
    WrongOperator(Text),
    /// The field at the path has no such value.
    #[error("the field has no such value")]
    BadValue(Text),
    /// More than six relations stand before the field.
    #[error("the path is too long")]
    PathTooLong(Text),
    /// As an or of ands, criteria over related rows have more than 4,096 ands.
    #[error("too many cases")]
    TooManyCases,
    /// Rows aren't sorted by what isn't shown of them.
    #[error("the field isn't shown")]
    SortNotShown(Text),
}

impl From<AllocError> for TypeFault {
    ghost use Rattle.std.specs.Prelude.{◌≡◌};
    ghost use Rattle.arti_query_model.specs.declared.fault.TypeFault.TheVariants.{Memory};

    ghost from_gives = { λ _ e. e ≡ Memory };

    fn from(_e: AllocError) -> TypeFault {
        TypeFault::Memory
    }
}

impl<T: Drop> From<AllocFailed<T>> for TypeFault {
    ghost use Rattle.std.specs.Prelude.{◌≡◌};
    ghost use Rattle.arti_query_model.specs.declared.fault.TypeFault.TheVariants.{Memory};

    ghost from_gives = { λ _ e. e ≡ Memory };

    fn from(_e: AllocFailed<T>) -> TypeFault {
        TypeFault::Memory
    }
}
