// Contents by their digests.
ghost use Rattle.std.specs.Prelude.{◌≡◌};
ghost use Rattle.std.specs.Option.{option_copied};
ghost use Rattle.arti_model.specs.Deploys.{agrees, has_digests, file_with};
ghost use Rattle.arti_catalog.specs.Contents.{digests_of, first_with, if_wanted};
ghost use Rattle.arti_catalog.specs.Held.{items_of, row_at_id};

use crate::parts::Parts;
use crate::rows::Rows;
use arti_rows::{Digests, FileRef, SomeDigests};

/// The content of the first file that has the digests, in the default order.
pub(crate) fn file_with<'a>(parts: &'a Parts, wanted: &SomeDigests) -> Option<&'a FileRef>
    ensures { option_copied result ≡ file_with digests_of wanted.now (items_of parts.now.tree parts.now.rows) }
{
    for block in parts.tree.ordered() {
        if let Some(file) = first_with(&parts.rows, block, wanted) {
            return Some(file);
        }
    }
    None
}

// The first content of the ids that has the digests.
fn first_with<'a>(rows: &'a Rows, ids: &[u32], wanted: &SomeDigests) -> Option<&'a FileRef>
    ensures { option_copied result ≡ first_with wanted.now rows.now ids.now }
{
    for id in ids {
        if let Some(file) = wanted_at(rows, *id, wanted) {
            return Some(file);
        }
    }
    None
}

// The content of an id, where it has the digests.
fn wanted_at<'a>(rows: &'a Rows, id: u32, wanted: &SomeDigests) -> Option<&'a FileRef>
    ensures { option_copied result ≡ if_wanted wanted.now (row_at_id rows.now id).file }
{
    let row = rows.get(id)?;
    let file = row.file.as_ref()?;
    if has_digests(wanted, &file.digests) {
        return Some(file);
    }
    None
}

// Whether all digests that are wanted are these.
fn has_digests(wanted: &SomeDigests, digests: &Digests) -> bool
    ensures { result ≡ has_digests wanted.now digests.now }
{
    agrees(&wanted.md5, &digests.md5)
        && agrees(&wanted.sha1, &digests.sha1)
        && agrees(&wanted.sha256, &digests.sha256)
}

// Whether a digest is the one that is wanted, if one is.
fn agrees<const N: usize>(wanted: &Option<[u8; N]>, digest: &[u8; N]) -> bool
    ensures { result ≡ agrees wanted.now digest.now }
{
    match wanted {
        Some(wanted) => wanted == digest,
        None => true,
    }
}
