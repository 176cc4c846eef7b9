// Which contents are kept, and how those of one SHA-256 are found.
ghost use Rattle.std.specs.Prelude.{◌≡◌, ◌↔◌, ◌<◌, [], ◌∷◌, ◌++◌, length, slice_index_or, Contains, IsTrue, OnOk, OnErr};
ghost use Rattle.arti_blobs.specs.Chains.{no_file, sha256_at, IsLast};

use arti_rows::FileRef;
use std::alloc::{AllocError, Global};
use std::collections::BTreeMap;
use std::marker::Model;

/// The references of the kept contents, in order of keeping. Contracts see the list.
#[derive(Drop)]
pub(crate) struct Index {
    kept: Vec<FileRef>,
    // The last one before each that has the same SHA-256.
    older: Vec<Option<usize>>,
    // The last one of each SHA-256.
    newest: BTreeMap<[u8; 32], usize>,
}

impl Model for Index {
    ghost use Rattle.std.specs.Prelude.{List};
    ghost use Rattle.arti_rows.specs.declared.rows.FileRef.{FileRef};
    ghost use Rattle.arti_blobs.specs.Chains.{Chained};

    ghost Value = { List FileRef };

    ghost view = { λ i. i.kept.items };

    ghost invariant = { λ i. Chained i.kept.items i.older.items i.newest };
}

impl Index {
    /// Nothing is kept.
    pub(crate) fn new(alloc: Global) -> Index
        ensures { result ≡ [] }
    {
        Index {
            kept: Vec::new(alloc),
            older: Vec::new(alloc),
            newest: BTreeMap::new(alloc),
        }
    }

    /// One more is kept.
    pub(crate) fn push(&mut self, file: FileRef) -> Result<(), AllocError>
        ensures more { OnOk result (self.new ≡ self.old ++ file ∷ []) }
        ensures unchanged { OnErr result (self.new ≡ self.old) }
    {
        self.kept.reserve(1)?;
        self.older.reserve(1)?;
        let before = self.newest.insert(file.digests.sha256, self.kept.len())?;
        self.kept.push(file)?;
        self.older.push(before)?;
        Ok(())
    }

    /// How many are kept.
    pub(crate) fn len(&self) -> usize
        ensures { result ≡ length self.now }
    {
        self.kept.len()
    }

    /// The one at an index.
    pub(crate) fn file(&self, index: usize) -> FileRef
        requires { index < length self.now }
        ensures { result ≡ slice_index_or self.now index no_file }
    {
        self.kept[index]
    }

    /// Where the last one of this SHA-256 stands.
    pub(crate) fn last(&self, sha256: &[u8; 32]) -> Option<usize>
        ensures { IsLast self.now sha256.now (length self.now) result }
    {
        self.newest.get(sha256).copied()
    }

    /// Where the last one before an index stands that has the SHA-256 of the one there.
    pub(crate) fn before(&self, index: usize) -> Option<usize>
        requires { index < length self.now }
        ensures { IsLast self.now (sha256_at self.now index) index result }
    {
        self.older[index]
    }

    /// Whether a reference is kept as a whole.
    pub(crate) fn has(&self, file: &FileRef) -> bool
        ensures { IsTrue result ↔ Contains self.now file.now }
    {
        let mut next = self.last(&file.digests.sha256);
        'chain: while let Some(index) = next {
            if self.file(index) == *file {
                return true;
            }
            next = self.before(index);
        }
        false
    }
}
