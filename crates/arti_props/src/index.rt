// Which rows have a pair or a digest.
use arti_ids::{Lists, TextLists};
use std::collections::BTreeMap;

/// The ids of the rows that have a pair, by key and value, and of those that have a digest.
#[derive(Drop)]
pub(crate) struct Index {
    pub(crate) values: BTreeMap<String, TextLists>,
    pub(crate) md5s: Lists<[u8; 16]>,
    pub(crate) sha1s: Lists<[u8; 20]>,
    pub(crate) sha256s: Lists<[u8; 32]>,
}
