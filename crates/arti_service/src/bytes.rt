// That changes have bytes.
ghost use Rattle.std.specs.Prelude.{◌≤◌, ◌∷◌, [], length};
ghost use Rattle.arti_rows.specs.declared.edits.Edit.TheVariants as edits;
ghost use Rattle.arti_codec.specs.Format.{IsBytes};
ghost use Rattle.arti_codec.specs.ChangeBytes.{text, moment, item_key, digests, file_ref, HasBytes};

use arti_rows::{Digests, FileRef, Given, ItemKey, Moment, Text};

// Each byte is below 256.
fn are_bytes(bytes: &[u8])
    ensures { IsBytes bytes.now }
{}

// A text that isn't too long has.
fn text_has_bytes(value: &Text)
    requires { length value.now ≤ 4096 }
    ensures { text.keeps value.now }
{
    are_bytes(value.as_str().as_bytes());
}

// A moment has.
fn moment_has_bytes(value: Moment)
    ensures { moment.keeps value }
{
    value.ms();
}

// The key of an item has.
fn key_has_bytes(value: &ItemKey)
    ensures { item_key.keeps value.now }
{
    value.rules();
    text_has_bytes(&value.repo);
    text_has_bytes(&value.path);
    text_has_bytes(&value.name);
}

// The digests of a content have.
fn digests_have_bytes(value: &Digests)
    ensures { digests.keeps value.now }
{
    are_bytes(&value.md5);
    are_bytes(&value.sha1);
    are_bytes(&value.sha256);
}

// The reference of a content has.
fn file_has_bytes(value: &FileRef)
    requires { value.now.len ≤ 67108864 }
    ensures { file_ref.keeps value.now }
{
    let _place = value.place;
    digests_have_bytes(&value.digests);
}

/// The change of a deploy has.
pub fn deploy_has_bytes(moment: Moment, user: &Text, key: &ItemKey, given: Given, file: &FileRef)
    requires user { length user.now ≤ 4096 }
    requires file { file.now.len ≤ 67108864 }
    ensures { HasBytes (record { moment = moment; user = user.now; edits = edits.File key.now given file.now [] ∷ [] }) }
{
    moment_has_bytes(moment);
    text_has_bytes(user);
    key_has_bytes(key);
    file_has_bytes(file);
}

/// The change of a fetch has.
pub fn fetch_has_bytes(moment: Moment, user: &Text, key: &ItemKey)
    requires user { length user.now ≤ 4096 }
    ensures { HasBytes (record { moment = moment; user = user.now; edits = edits.Downloaded key.now ∷ [] }) }
{
    moment_has_bytes(moment);
    text_has_bytes(user);
    key_has_bytes(key);
}
