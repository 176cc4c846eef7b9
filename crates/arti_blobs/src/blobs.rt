// Contents, each kept once.
ghost use Rattle.std.specs.Prelude.{◌≡◌, ◌≢◌, ◌↔◌, ◌+◌, ◌^◌, ◌<◌, ◌≤◌, ℕ, false, List, [], ◌++◌, length, take, All, Contains, Err, None, IsTrue, IsSome, IfOk, OnOk, OnErr, IsErrOf, IfSome};
ghost use Rattle.arti_rows.specs.DigestsOf.{digests_of};
ghost use Rattle.arti_rows.specs.Sizes.{contents_file};
ghost use Rattle.arti_rows.specs.declared.rows.FileRef.{FileRef};
ghost use Rattle.arti_ground.specs.State.{State, Reads, Follows, Passes, OnlyReads, HasCause, Rose};
ghost use Rattle.arti_blobs.specs.Contents.{Contents, content, end_of, Keeps, HasPair, AllDiffer, kept_with, Stages, staged_length, HoldsContents, HoldsStaged, KeepsFront, Behind};
ghost use Rattle.arti_blobs.specs.Chains.{Adds, FollowsNot};

use crate::comparing::{BLOCK, all_differ, find_same};
use crate::index::Index;
use crate::staging::{Staged, Staging};
use crate::{KeepFault, StageFault};
use arti_ground::Ground;
use arti_rows::{CONTENTS_FILE, FileRef};
use std::alloc::{AllocError, Global};
use std::marker::Model;

/// Where kept contents end at the most.
const MOST: u64 = 1 << 62;

/// The contents in file 3 of the ground that is handed in beside it. Contracts see the references of the kept contents in order
/// of keeping, and what is staged.
#[derive(Drop)]
pub struct Blobs {
    index: Index,
    end: u64,
    staging: Option<Staging>,
    one: Vec<u8>,
    other: Vec<u8>,
}

impl Model for Blobs {
    ghost use Rattle.std.specs.Prelude.{◌≡◌, ◌+◌, ◌^◌, ◌<◌, ◌≤◌, length, All};
    ghost use Rattle.arti_blobs.specs.Contents.{Contents, end_of, staged_length};

    ghost Value = { Contents };

    ghost view = { λ b. record { kept = b.index; staging = b.staging } };

    ghost invariant = { λ b. record {
      end_is : b.end ≡ end_of b.index;
      short : b.end + staged_length b.staging < 2 ^ 63;
      within : All (λ file. file.place + file.len ≤ b.end) b.index;
      some : 1 ≤ length b.one.items;
      long : length b.other.items ≡ length b.one.items;
    } };
}

impl Blobs {
    /// Contents that are kept already, in order of keeping. Each reference is an earlier one again, or begins where the kept
    /// contents before it end.
    pub fn open(alloc: Global, kept: Vec<FileRef>) -> Result<Blobs, AllocError>
        requires { (all : List FileRef) × Keeps [] kept.items all × (end_of all ≤ 2 ^ 62) }
        ensures kept { IfOk result (λ b. Keeps [] kept.items b.kept) }
        ensures only { IfOk result (λ b. (all : List FileRef) → Keeps [] kept.items all → all ≡ b.kept) }
        ensures staging { IfOk result (λ b. b.staging ≡ None) }
    {
        let (index, end) = index_of(alloc, &kept)?;
        let one = vec![in alloc; 0u8; BLOCK]?;
        let other = vec![in alloc; 0u8; BLOCK]?;
        Ok(Blobs {
            index,
            end,
            staging: None,
            one,
            other,
        })
    }

    /// The same for references that may be any: none exactly where one of them is no earlier one and doesn't begin where the kept
    /// contents before it end, or where they would end past 2^62.
    pub fn checked(alloc: Global, files: &[FileRef]) -> Result<Option<Blobs>, AllocError>
        ensures kept { IfOk result (λ r. IfSome r (λ b. Keeps [] files.now b.kept)) }
        ensures short { IfOk result (λ r. IfSome r (λ b. end_of b.kept ≤ 2 ^ 62)) }
        ensures staging { IfOk result (λ r. IfSome r (λ b. b.staging ≡ None)) }
        ensures none { IfOk result (λ r. r ≡ None → (all : List FileRef) → Keeps [] files.now all → end_of all ≤ 2 ^ 62 → ⊥) }
    {
        match checked_index(alloc, files)? {
            None => Ok(None),
            Some((index, end)) => {
                let one = vec![in alloc; 0u8; BLOCK]?;
                let other = vec![in alloc; 0u8; BLOCK]?;
                Ok(Some(Blobs {
                    index,
                    end,
                    staging: None,
                    one,
                    other,
                }))
            }
        }
    }

    /// Whether no two kept contents have the same bytes and the same digests. Contents are compared in blocks.
    pub fn all_differ<G: Ground>(&mut self, outside: &mut G) -> Result<bool, StageFault>
        requires holds { G.tells → HoldsContents (G.state outside.old) self.old }
        ensures differ { G.tells → IfOk result (λ b. IsTrue b ↔ AllDiffer ((G.state outside.old).files contents_file) self.old.kept) }
        ensures unchanged { self.new ≡ self.old }
        ensures reads { G.tells → OnlyReads (G.state outside.old) (G.state outside.new) }
        ensures device { OnErr result (result ≡ Err StageFault.Device) }
        ensures cause { HasCause (G.disk_faults outside.old) (G.disk_faults outside.new) result }
        ensures tell_faults { G.tell_faults outside.new ≡ G.tell_faults outside.old }
    {
        let _end = self.end;
        Ok(all_differ(outside, &self.index, &mut self.one, &mut self.other)?)
    }

    /// Begins a staging with no bytes. One that isn't ended is given up.
    pub fn stage_begin(&mut self)
        ensures kept { self.new.kept ≡ self.old.kept }
        ensures begun { IsSome self.new.staging }
        ensures length { staged_length self.new.staging ≡ 0 }
        ensures staged { Stages self.new [] }
    {
        self.staging = Some(Staging::new());
    }

    /// Writes the next bytes of the staged content behind the kept ones, unless its length would pass `max`. After a fault the
    /// staging is given up.
    pub fn stage_piece<G: Ground>(
        &mut self,
        outside: &mut G,
        piece: &[u8],
        max: u64,
    ) -> Result<(), StageFault>
        requires begun { IsSome self.old.staging }
        requires room { end_of self.old.kept + max < 2 ^ 63 }
        requires holds { G.tells → HoldsContents (G.state outside.old) self.old }
        ensures kept { self.new.kept ≡ self.old.kept }
        ensures begun { OnOk result (IsSome self.new.staging) }
        ensures length { OnOk result (staged_length self.new.staging ≡ staged_length self.old.staging + length piece.now) }
        ensures staged { OnOk result ((bytes : List ℕ) → Stages self.old bytes → Stages self.new (bytes ++ piece.now)) }
        ensures written { G.tells → OnOk result ((bytes : List ℕ) → HoldsStaged (G.state outside.old) self.old bytes
            → HoldsStaged (G.state outside.new) self.new (bytes ++ piece.now)) }
        ensures given_up { OnErr result (self.new.staging ≡ None) }
        ensures too_large { IsErrOf result StageFault.TooLarge ↔ (max < staged_length self.old.staging + length piece.now) }
        ensures not_written { IsErrOf result StageFault.TooLarge → outside.new ≡ outside.old }
        ensures holds { G.tells → HoldsContents (G.state outside.new) self.new }
        ensures files { G.tells → KeepsFront (end_of self.old.kept) (G.state outside.old).files (G.state outside.new).files }
        ensures images { G.tells → Follows (KeepsFront (end_of self.old.kept)) (G.state outside.old) (G.state outside.new) }
        ensures moments { G.tells → Passes (G.state outside.old) (G.state outside.new) (Behind (G.state outside.old) (end_of self.old.kept)) }
        ensures told { G.tells → (G.state outside.new).told ≡ (G.state outside.old).told }
        ensures device { IsErrOf result StageFault.Device → Rose (G.disk_faults outside.old) (G.disk_faults outside.new) }
        ensures quiet { result ≢ Err StageFault.Device → G.disk_faults outside.new ≡ G.disk_faults outside.old }
        ensures later { G.disk_faults outside.old ≤ G.disk_faults outside.new }
        ensures tell_faults { G.tell_faults outside.new ≡ G.tell_faults outside.old }
    {
        let mut staging = self.staging.take().unwrap();
        if staging.len > max || piece.len() as u64 > max - staging.len {
            return Err(StageFault::TooLarge);
        }
        outside.write_at(CONTENTS_FILE, self.end + staging.len, piece)?;
        staging.take(piece);
        self.staging = Some(staging);
        Ok(())
    }

    /// Ends the staging. The content isn't fresh exactly where a kept one has its bytes and its three digests, and then the answer
    /// is that one. Contents are compared in blocks. After a fault the staging is given up.
    pub fn stage_end<G: Ground>(&mut self, outside: &mut G) -> Result<Staged, StageFault>
        requires begun { IsSome self.old.staging }
        requires holds { G.tells → HoldsContents (G.state outside.old) self.old }
        ensures ended { self.new ≡ record self.old { staging = None } }
        ensures length { IfOk result (λ s. s.file.len ≡ staged_length self.old.staging) }
        ensures digests { (bytes : List ℕ) → Stages self.old bytes → IfOk result (λ s. s.file.digests ≡ digests_of bytes) }
        ensures content { G.tells → (bytes : List ℕ) → HoldsStaged (G.state outside.old) self.old bytes
            → IfOk result (λ s. content ((G.state outside.new).files contents_file) s.file ≡ bytes) }
        ensures fresh { G.tells → (bytes : List ℕ) → HoldsStaged (G.state outside.old) self.old bytes
            → IfOk result (λ s. s.fresh ≡ false ↔ HasPair ((G.state outside.old).files contents_file) self.old.kept bytes (digests_of bytes)) }
        ensures kept { IfOk result (λ s. s.fresh ≡ false → Contains self.old.kept s.file) }
        ensures place { IfOk result (λ s. IsTrue s.fresh → s.file.place ≡ end_of self.old.kept) }
        ensures short { IfOk result (λ s. end_of (kept_with self.old.kept s) < 2 ^ 63) }
        ensures holds { G.tells → HoldsContents (G.state outside.new) self.new }
        ensures next { G.tells → IfOk result (λ s. HoldsContents (G.state outside.new) (record { kept = kept_with self.old.kept s; staging = None })) }
        ensures reads { G.tells → OnlyReads (G.state outside.old) (G.state outside.new) }
        ensures device { OnErr result (result ≡ Err StageFault.Device) }
        ensures cause { HasCause (G.disk_faults outside.old) (G.disk_faults outside.new) result }
        ensures tell_faults { G.tell_faults outside.new ≡ G.tell_faults outside.old }
    {
        let staging = self.staging.take().unwrap();
        let file = staging.finish(self.end);
        let kept = find_same(outside, &self.index, &file, &mut self.one, &mut self.other)?;
        match kept {
            Some(kept) => Ok(Staged {
                file: kept,
                fresh: false,
            }),
            None => Ok(Staged { file, fresh: true }),
        }
    }

    /// Keeps what was staged, unless the kept contents would pass the limit. A content that isn't fresh is kept already.
    pub fn keep(&mut self, staged: &Staged, limit: u64) -> Result<(), KeepFault>
        requires ended { self.old.staging ≡ None }
        requires place { IsTrue staged.now.fresh → staged.now.file.place ≡ end_of self.old.kept }
        requires short { end_of (kept_with self.old.kept staged.now) < 2 ^ 63 }
        ensures kept { OnOk result (self.new ≡ record { kept = kept_with self.old.kept staged.now; staging = None }) }
        ensures unchanged { OnErr result (self.new ≡ self.old) }
        ensures full { IsErrOf result KeepFault.Full ↔ (IsTrue staged.now.fresh × (limit < end_of self.old.kept + staged.now.file.len)) }
    {
        if !staged.fresh {
            return Ok(());
        }
        let end = self.end + staged.file.len;
        if end > limit {
            return Err(KeepFault::Full);
        }
        self.index.push(staged.file)?;
        self.end = end;
        Ok(())
    }

    /// The sum of the lengths of the kept contents, where each stands once. The contents end there in the file.
    pub fn kept_length(&self) -> u64
        ensures sum { result ≡ end_of self.now.kept }
        ensures within { All (λ file. file.place + file.len ≤ result) self.now.kept }
    {
        self.end
    }

    /// Reads the bytes of a kept content from a place in it on, as far as they fit, and none past its end.
    pub fn read<G: Ground>(
        &mut self,
        outside: &mut G,
        file: &FileRef,
        at: u64,
        buf: &mut [u8],
    ) -> Result<usize, StageFault>
        requires kept { Contains self.old.kept file.now }
        requires holds { G.tells → HoldsContents (G.state outside.old) self.old }
        ensures within { IfOk result (λ n. n ≤ length buf.old) }
        ensures bytes { G.tells → IfOk result (Reads (content ((G.state outside.old).files contents_file) file.now) at buf.old buf.new) }
        ensures unchanged { self.new ≡ self.old }
        ensures holds { G.tells → HoldsContents (G.state outside.new) self.new }
        ensures reads { G.tells → OnlyReads (G.state outside.old) (G.state outside.new) }
        ensures device { OnErr result (result ≡ Err StageFault.Device) }
        ensures cause { HasCause (G.disk_faults outside.old) (G.disk_faults outside.new) result }
        ensures tell_faults { G.tell_faults outside.new ≡ G.tell_faults outside.old }
    {
        let _end = self.end;
        if at >= file.len {
            return Ok(0);
        }
        let n = (file.len - at).min(buf.len() as u64) as usize;
        Ok(outside.read(CONTENTS_FILE, file.place + at, &mut buf[..n])?)
    }
}

// What is kept after these references, and where it ends.
fn index_of(alloc: Global, kept: &[FileRef]) -> Result<(Index, u64), AllocError>
    requires { (all : List FileRef) × Keeps [] kept.now all × (end_of all ≤ 2 ^ 62) }
    ensures kept { IfOk result (λ r. Keeps [] kept.now r.0) }
    ensures only { IfOk result (λ r. (all : List FileRef) → Keeps [] kept.now all → all ≡ r.0) }
    ensures end { IfOk result (λ r. r.1 ≡ end_of r.0) }
    ensures short { IfOk result (λ r. r.1 ≤ 2 ^ 62) }
    ensures within { IfOk result (λ r. All (λ file. file.place + file.len ≤ r.1) r.0) }
{
    let mut index = Index::new(alloc);
    let mut end = 0;
    'files: for file in kept {
        if !index.has(file) {
            index.push(*file)?;
            end += file.len;
        }
    }
    Ok((index, end))
}

// One reference more, which is kept already or begins where the kept contents end, and where they end then. None where it does
// neither, or where they would end past 2^62.
fn add_one(index: &mut Index, end: u64, file: &FileRef) -> Result<Option<u64>, AllocError>
    requires { end ≤ 2 ^ 62 }
    ensures added { IfOk result (λ r. IfSome r (Adds index.old end file.now index.new)) }
    ensures none { IfOk result (λ r. r ≡ None → FollowsNot index.old end file.now) }
{
    if index.has(file) {
        return Ok(Some(end));
    }
    if file.place != end || file.len > MOST - end {
        return Ok(None);
    }
    index.push(*file)?;
    Ok(Some(end + file.len))
}

// What is kept after these references, and where it ends, or none where no list of kept ones has them.
fn checked_index(alloc: Global, files: &[FileRef]) -> Result<Option<(Index, u64)>, AllocError>
    ensures kept { IfOk result (λ r. IfSome r (λ x. Keeps [] files.now x.0)) }
    ensures end { IfOk result (λ r. IfSome r (λ x. x.1 ≡ end_of x.0)) }
    ensures short { IfOk result (λ r. IfSome r (λ x. x.1 ≤ 2 ^ 62)) }
    ensures within { IfOk result (λ r. IfSome r (λ x. All (λ file. file.place + file.len ≤ x.1) x.0)) }
    ensures none { IfOk result (λ r. r ≡ None → (all : List FileRef) → Keeps [] files.now all → end_of all ≤ 2 ^ 62 → ⊥) }
{
    let mut index = Index::new(alloc);
    let mut end = 0;
    'files: for file in files {
        match add_one(&mut index, end, file)? {
            None => return Ok(None),
            Some(next) => end = next,
        }
    }
    Ok(Some((index, end)))
}

/// A content that ends in the first bytes of a file is the same in each file with the same first bytes. So what was kept reads
/// the same after each call that leaves the file as it is up to the end of the kept contents.
pub fn contents_stay()
    ensures { (file : FileRef) (end : ℕ) (bytes others : List ℕ) → file.place + file.len ≤ end → take end others ≡ take end bytes → content others file ≡ content bytes file }
{}
