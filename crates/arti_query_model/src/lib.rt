//! What the promises about queries speak of: the table of domains, why a query isn't typed, and for which rows its criteria hold.
#![tactic(auto)]

mod fault;
mod fields;
mod tests;

pub use fault::TypeFault;
pub use fields::{FieldId, FieldType, Rel};
pub use tests::{ItemKind, PropKey, PropTest, Shown, ShownPart, TypedLit, TypedTest};
