//! Query texts, read and printed.
#![tactic(auto)]

mod criteria;
mod elements;
mod fault;
mod laws;
mod numbers;
mod parser;
mod print_parts;
mod print_tree;
mod printing;
mod query;
mod reading;
mod suffixes;
mod thin;
mod words;

pub use arti_rows::What;
pub use fault::ParseFault;
pub use laws::{spelled_queries_have_spellings, texts_spell_one_query};
pub use printing::print;
pub use query::{Lit, Member, Object, Op, Query, Sort, Test};
pub use reading::parse;
pub use thin::{ThinFault, thin_parse};
