// What the fields of a deploy say of its content. Names are compared without ASCII case, and of several fields of one
// name the first counts.
ghost use Rattle.std.specs.Prelude.{◌≡◌, None, is_err, option_and_then, option_copied};
ghost use Rattle.std.specs.Result.{result_unwrap_or};
ghost use Rattle.arti_model.specs.Heads.{has_field};
ghost use Rattle.arti_model.specs.Deploys.{first_value, written, is_bad, bad_header, wanted_digests, is_checksum_deploy};
ghost use Rattle.arti_wire.specs.Fields.{texts_of};
ghost use Rattle.std.specs.Str.{str_eq_ignore_ascii_case};

use arti_rows::SomeDigests;
use arti_wire::Field;
use hex::{FromHex, FromHexError};

pub const DEPLOY: &str = "X-Checksum-Deploy";

pub const MD5: &str = "X-Checksum-Md5";

pub const SHA1: &str = "X-Checksum-Sha1";

pub const SHA256: &str = "X-Checksum-Sha256";

// Whether the field has that name.
fn is_named(field: &Field, name: &str) -> bool
    ensures { result ≡ str_eq_ignore_ascii_case field.now.0 name.now }
{
    field.0.as_str().eq_ignore_ascii_case(name)
}

/// Whether some field has that name.
pub fn has_field(fields: &[Field], name: &str) -> bool
    ensures { result ≡ has_field (texts_of fields.now) name.now }
{
    for field in fields {
        if is_named(field, name) {
            return true;
        }
    }
    false
}

/// The value of the first field of that name.
pub fn first_value<'a>(fields: &'a [Field], name: &str) -> Option<&'a [u8]>
    ensures { option_copied result ≡ first_value (texts_of fields.now) name.now }
{
    for field in fields {
        if is_named(field, name) {
            return Some(field.1.as_slice());
        }
    }
    None
}

// The digest that the first field of that name writes, if there is one; an error where it writes none.
fn digest_of<const N: usize>(fields: &[Field], name: &str) -> Result<Option<[u8; N]>, FromHexError>
    ensures bad { is_err result ≡ is_bad N (first_value (texts_of fields.now) name.now) }
    ensures wanted { result_unwrap_or result None ≡ option_and_then (written N) (first_value (texts_of fields.now) name.now) }
{
    match first_value(fields, name) {
        Some(text) => match <[u8; N] as FromHex>::from_hex(text) {
            Ok(digest) => Ok(Some(digest)),
            Err(error) => Err(error),
        },
        None => Ok(None),
    }
}

/// The name of the first digest field that isn't hexadecimal digits of the right number: MD5, SHA-1, SHA-256.
pub fn bad_header(fields: &[Field]) -> Option<&'static str>
    ensures { option_copied result ≡ bad_header (texts_of fields.now) }
{
    if digest_of::<16>(fields, MD5).is_err() {
        return Some(MD5);
    }
    if digest_of::<20>(fields, SHA1).is_err() {
        return Some(SHA1);
    }
    if digest_of::<32>(fields, SHA256).is_err() {
        return Some(SHA256);
    }
    None
}

/// The digests that the fields write; one that is malformed counts as none.
pub fn wanted_digests(fields: &[Field]) -> SomeDigests
    ensures { result ≡ wanted_digests (texts_of fields.now) }
{
    SomeDigests {
        md5: digest_of(fields, MD5).unwrap_or(None),
        sha1: digest_of(fields, SHA1).unwrap_or(None),
        sha256: digest_of(fields, SHA256).unwrap_or(None),
    }
}

/// Whether the content is to be found by its digests: the field is `true`, in small letters.
pub fn is_checksum_deploy(fields: &[Field]) -> bool
    ensures { result ≡ is_checksum_deploy (texts_of fields.now) }
{
    match first_value(fields, DEPLOY) {
        Some(value) => value == b"true".as_slice(),
        None => false,
    }
}
