// The digests that a deploy wants, beside those of a content.
ghost use Rattle.std.specs.Prelude.{◌≡◌, option_copied};
ghost use Rattle.arti_model.specs.Deploys.{lacks_digest, given_of, agrees, has_digests, mismatch};

use arti_rows::{Digests, Given, SomeDigests};

/// Whether neither of the digests is there by which a content may be found: SHA-1 and SHA-256.
pub fn lacks_digest(wanted: &SomeDigests) -> bool
    ensures { result ≡ lacks_digest wanted.now }
{
    wanted.sha1.is_none() && wanted.sha256.is_none()
}

/// Which of the digests the client gave.
pub fn given_of(wanted: &SomeDigests) -> Given
    ensures { result ≡ given_of wanted.now }
{
    Given {
        md5: wanted.md5.is_some(),
        sha1: wanted.sha1.is_some(),
        sha256: wanted.sha256.is_some(),
    }
}

// Whether a digest is the one that is wanted, if one is.
fn agrees<const N: usize>(wanted: &Option<[u8; N]>, digest: &[u8; N]) -> bool
    ensures { result ≡ agrees wanted.now digest.now }
{
    match wanted {
        Some(wanted) => wanted == digest,
        None => true,
    }
}

/// Whether all digests that are wanted are these.
pub fn has_digests(wanted: &SomeDigests, digests: &Digests) -> bool
    ensures { result ≡ has_digests wanted.now digests.now }
{
    agrees(&wanted.md5, &digests.md5)
        && agrees(&wanted.sha1, &digests.sha1)
        && agrees(&wanted.sha256, &digests.sha256)
}

/// The first of `md5`, `sha1` and `sha256` that is wanted and another one.
pub fn mismatch(wanted: &SomeDigests, digests: &Digests) -> Option<&'static str>
    ensures { option_copied result ≡ mismatch wanted.now digests.now }
{
    if !agrees(&wanted.md5, &digests.md5) {
        return Some("md5");
    }
    if !agrees(&wanted.sha1, &digests.sha1) {
        return Some("sha1");
    }
    if !agrees(&wanted.sha256, &digests.sha256) {
        return Some("sha256");
    }
    None
}
