// What has bytes, of what a change is made of.
ghost use Rattle.std.specs.Prelude.{◌≤◌, length};
ghost use Rattle.arti_rows.specs.Sizes.{most_content};
ghost use Rattle.arti_codec.specs.Format.{IsBytes};
ghost use Rattle.arti_codec.specs.ChangeBytes.{text, moment, item_key, digests, file_ref};

use arti_rows::{Digests, FileRef, ItemKey, Moment, Text};

// Each byte is below 256.
fn are_bytes(bytes: &[u8])
    ensures { IsBytes bytes.now }
{}

/// A text that isn't too long has.
pub(crate) fn text_has_bytes(value: &Text)
    ensures { length value.now ≤ 4096 → text.keeps value.now }
{
    are_bytes(value.as_str().as_bytes());
}

/// A moment has.
pub(crate) fn moment_has_bytes(value: Moment)
    ensures { moment.keeps value }
{
    value.ms();
}

/// The key of an item has.
pub(crate) fn key_has_bytes(value: &ItemKey)
    ensures { item_key.keeps value.now }
{
    value.rules();
    text_has_bytes(&value.repo);
    text_has_bytes(&value.path);
    text_has_bytes(&value.name);
}

// The digests of a content have.
fn digests_have_bytes(value: &Digests)
    ensures { digests.keeps value.now }
{
    are_bytes(&value.md5);
    are_bytes(&value.sha1);
    are_bytes(&value.sha256);
}

/// The reference of a content that isn't too long has.
pub(crate) fn file_has_bytes(value: &FileRef)
    ensures { value.now.len ≤ most_content → file_ref.keeps value.now }
{
    let _place = value.place;
    digests_have_bytes(&value.digests);
}
