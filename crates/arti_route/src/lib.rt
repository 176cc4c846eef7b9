//! What a request asks: its target, its route, its user, and what the fields of a deploy say of its content.
#![tactic(auto)]

mod ask;
mod asking;
mod digests;
mod fields;
mod names;
mod places;
mod queries;
mod routes;
mod rows;
mod target;

pub use ask::{has_method, is_query, item_asked};
pub use asking::ask_of;
pub use digests::{given_of, has_digests, lacks_digest, mismatch};
pub use fields::{bad_header, is_checksum_deploy, wanted_digests};
