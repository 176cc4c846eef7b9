// A content that is taken in piece by piece, and its three digests.
ghost use Rattle.std.specs.Prelude.{◌≡◌, ◌+◌, ◌^◌, ◌<◌, ℕ, List, [], ◌++◌, length};
ghost use Rattle.arti_rows.specs.DigestsOf.{digests_of};
ghost use Rattle.arti_blobs.specs.Digests.{HasTaken, Has};

use arti_rows::{Digests, FileRef};
use md5::{Digest as MdDigest, Md5};
use sha1::Sha1;
use sha2::{Digest, Sha256};

/// A content that was staged: where it begins in the contents file, its length and its digests. It is fresh unless a kept
/// content has these bytes and these digests, and then it stands at that content's place.
#[derive(Clone, Copy, Debug, PartialEq, Eq)]
pub struct Staged {
    pub file: FileRef,
    pub fresh: bool,
}

// The hashers of the three digests.
#[derive(Drop)]
pub(crate) struct Hashers {
    md5: Md5,
    sha1: Sha1,
    sha256: Sha256,
}

// What has come of a content.
#[derive(Drop)]
pub(crate) struct Staging {
    hashers: Hashers,
    pub(crate) len: u64,
}

impl Hashers {
    fn new() -> Hashers
        ensures { HasTaken result [] }
    {
        Hashers {
            md5: <Md5 as MdDigest>::new(),
            sha1: Sha1::new(),
            sha256: <Sha256 as Digest>::new(),
        }
    }

    fn take(&mut self, piece: &[u8])
        ensures { (bytes : List ℕ) → HasTaken self.old bytes → HasTaken self.new (bytes ++ piece.now) }
    {
        MdDigest::update(&mut self.md5, piece);
        self.sha1.update(piece);
        Digest::update(&mut self.sha256, piece);
    }

    fn finish(self) -> Digests
        ensures { (bytes : List ℕ) → HasTaken self bytes → result ≡ digests_of bytes }
    {
        Digests {
            md5: MdDigest::finalize(self.md5),
            sha1: self.sha1.finalize(),
            sha256: Digest::finalize(self.sha256),
        }
    }
}

impl Staging {
    /// Nothing has come yet.
    pub(crate) fn new() -> Staging
        ensures { Has result [] }
    {
        Staging {
            hashers: Hashers::new(),
            len: 0,
        }
    }

    /// Takes in the next bytes.
    pub(crate) fn take(&mut self, piece: &[u8])
        requires { self.old.len + length piece.now < 2 ^ 64 }
        ensures len { self.new.len ≡ self.old.len + length piece.now }
        ensures bytes { (bytes : List ℕ) → Has self.old bytes → Has self.new (bytes ++ piece.now) }
    {
        self.hashers.take(piece);
        self.len += piece.len() as u64;
    }

    /// The reference of the whole content, which begins at this place.
    pub(crate) fn finish(self, place: u64) -> FileRef
        ensures place { result.place ≡ place }
        ensures len { result.len ≡ self.len }
        ensures digests { (bytes : List ℕ) → Has self bytes → result.digests ≡ digests_of bytes }
    {
        FileRef {
            place,
            len: self.len,
            digests: self.hashers.finish(),
        }
    }
}

/// The three digests of a content.
pub fn digests_of(content: &[u8]) -> Digests
    ensures { result ≡ digests_of content.now }
{
    Digests {
        md5: <Md5 as MdDigest>::digest(content),
        sha1: Sha1::digest(content),
        sha256: <Sha256 as Digest>::digest(content),
    }
}
