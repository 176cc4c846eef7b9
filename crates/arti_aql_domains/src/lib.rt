//! The fields and paths that queries name, and the values that they are tested against.
#![tactic(auto)]

mod alone;
mod cases;
mod cond;
mod criteria;
mod faults;
mod held;
mod leaves;
mod owned;
mod paths;
mod queries;
mod same;
mod sorting;
mod table;
mod tested;
mod values;

pub use alone::{is_alone, test};
pub use arti_query_model::{
    FieldId, FieldType, ItemKind, PropKey, PropTest, Rel, Shown, ShownPart, TypeFault, TypedLit,
    TypedTest,
};
pub use cond::{Cond, Typed};
pub use held::{Held, Row};
pub use paths::{Target, What, find_target, shown_of};
pub use queries::type_query;
pub use table::{field_of, has_properties, is_shown_at_first, relation_name, relation_of, takes};
pub use values::{kind_of, number_in, typed_test, value_test};
