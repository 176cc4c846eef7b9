// The store: rows in memory, a journal of changes, and the contents that they name, in files of the ground that is handed in beside it.
//
// 1. The content of each row is a kept one: the invariant `files`.
// 2. While it is open, the files and whatever a crash leaves of them stand for it: `holds`.
// 3. A crash in a commit leaves the store before it or behind it, and from its Ok on the one behind: `moments`, `holds`.
// 4. A commit ends as the model's `accept` says of what the store shows: `accepts`.
// 5. After `Device` and `Memory` it is closed until it is opened again, since 2 may fail: `left`.
ghost use Rattle.std.specs.Prelude.{◌≡◌, ◌≢◌, ◌↔◌, ◌∷◌, ◌+◌, ◌^◌, ◌<◌, ◌≤◌, ◌++◌, ℕ, List, [], length, All, Contains, None, Some, Err, IsTrue, IsSome, IfOk, IfSome, OnOk, OnErr, IsErrOf, IsSomeAnd, false, ◌||◌, is_some, is_none, option_map};
ghost use Rattle.std.specs.Option.{option_copied};
ghost use Rattle.arti_rows.specs.Key.{folders_above};
ghost use Rattle.arti_rows.specs.Sizes.{most_content};
ghost use Rattle.arti_ground.specs.State.{Reads, IsDurable, Passes, OnlyReads, AfterSync, Counts};
ghost use Rattle.arti_blobs.specs.Digests.{digests_of};
ghost use Rattle.arti_blobs.specs.Contents.{end_of, Stages, staged_length, HoldsStaged};
ghost use Rattle.arti_codec.specs.ChangeBytes.{HasBytes};
ghost use Rattle.arti_model.specs.Store.{find_item};
ghost use Rattle.arti_model.specs.Apply.{Holding, file_above, has_folder, added_with, passes_limit, edit_refusal};
ghost use Rattle.arti_model.specs.Stock.{accept};
ghost use Rattle.arti_store.specs.Items.{InOrder, HasFileIn, item_in, items_of, items_in, find_row};
ghost use Rattle.arti_store.specs.Changes.{references_of};
ghost use Rattle.arti_store.specs.Store.{bytes_at, file_at, shows, SameContents, judged, Stands, HoldsStore, Standing, Reopening};
ghost use Rattle.arti_store.specs.Commit.{Supplies, EndsAs, LeftBy, RoomSays, Committing};

use crate::commit::{RecordFault, added, take_up, write_record};
use crate::judging::{accepts, is_barred, passes_limit};
use crate::recovery::{open_contents, replay};
use crate::rows::Rows;
use crate::{CommitFault, ContentFault, OpenFault};
use arti_blobs::{Blobs, StageFault, Staged};
use arti_codec::bytes_are_of_one_change;
use arti_ground::Ground;
use arti_journal::{Journal, JournalFault, one_list_of_bodies};
use arti_rows::{Change, Edit, FileRef, ItemKey, ItemRow, JOURNAL_FILE, Limits, Which};
use std::alloc::{AllocError, Global};
use std::marker::Model;

/// A store in the journal's and the contents' file of the ground that is handed in beside it. Contracts see its rows, its contents, how much is
/// used of its journal, its limits, how many commits answered Ok, and the number of the commit that closed it.
#[derive(Drop)]
pub struct Store {
    rows: Rows,
    blobs: Blobs,
    journal: Journal,
    limits: Limits,
    commits: u64,
    closed: Option<u64>,
}

impl Model for Store {
    ghost use Rattle.std.specs.Prelude.{◌≡◌, ◌^◌, ◌≤◌, All};
    ghost use Rattle.arti_rows.specs.Sizes.{journal_file, most_content};
    ghost use Rattle.arti_blobs.specs.Contents.{end_of};
    ghost use Rattle.arti_store.specs.Items.{HasFileIn};
    ghost use Rattle.arti_store.specs.Store.{View};

    ghost Value = { View };

    ghost view = { λ s. record { rows = s.rows; contents = s.blobs; used = s.journal.used; limits = s.limits; commits = s.commits; closed = s.closed } };

    ghost invariant = { λ s. record {
      file_is : s.journal.file ≡ journal_file;
      files : All (HasFileIn s.blobs.kept) s.rows;
      short : end_of s.blobs.kept ≤ 2 ^ 62;
      lens : All (λ file. file.len ≤ most_content) s.blobs.kept;
    } };
}

impl Store {
    /// Opens the store in the files, and begins with a sync. Files of a new store, whose journal has at most 17 bytes, are a
    /// store without items.
    pub fn open<G: Ground>(
        alloc: Global,
        ground: &mut G,
        limits: &Limits,
    ) -> Result<Store, OpenFault>
        ensures stands { G.tells → IfOk result (λ s. Stands limits.now (G.state ground.old).files (shows (G.state ground.old) s).holding s.used) }
        ensures none { G.tells → IsErrOf result OpenFault.NotAStore → (h : Holding) (used : ℕ) → Stands limits.now (G.state ground.old).files h used → ⊥ }
        ensures holds { G.tells → IfOk result (λ s. HoldsStore (G.state ground.new) s) }
        ensures contents { G.tells → OnOk result (SameContents (G.state ground.old) (G.state ground.new)) }
        ensures still_open { IfOk result (λ s. s.closed ≡ None) }
        ensures limits { IfOk result (λ s. s.limits ≡ limits.now) }
        ensures commits { IfOk result (λ s. s.commits ≡ 0) }
        ensures staging { IfOk result (λ s. s.contents.staging ≡ None) }
        ensures durable { G.tells → OnOk result (IsDurable (G.state ground.new)) }
        ensures told { G.tells → (G.state ground.new).told ≡ (G.state ground.old).told }
        ensures moments { G.tells → AfterSync (G.state ground.old) (G.state ground.new) (Reopening (G.state ground.old) limits.now) }
        ensures disk { Counts (G.disk_faults ground.old) (G.disk_faults ground.new) (IsErrOf result OpenFault.Device) }
        ensures tell { G.tell_faults ground.new ≡ G.tell_faults ground.old }
    {
        one_list_of_bodies();
        bytes_are_of_one_change();
        let (journal, bodies) = match Journal::open(alloc, ground, JOURNAL_FILE) {
            Err(JournalFault::NotAJournal) => return Err(OpenFault::NotAStore),
            Err(JournalFault::Device) => return Err(OpenFault::Device),
            Err(JournalFault::Memory) => return Err(OpenFault::Memory),
            Ok(opened) => opened,
        };
        let (rows, files) = match replay(alloc, limits, &bodies) {
            Err(_) => return Err(OpenFault::Memory),
            Ok(None) => return Err(OpenFault::NotAStore),
            Ok(Some(done)) => done,
        };
        let blobs = match open_contents(alloc, ground, &files) {
            Err(fault) => return Err(fault),
            Ok(blobs) => blobs,
        };
        Ok(Store {
            rows,
            blobs,
            journal,
            limits: *limits,
            commits: 0,
            closed: None,
        })
    }

    /// Commits a change that is accepted, with the content that was staged for it. A fresh content is kept where the change
    /// names it. From Ok on each crash leaves the change. After `Device` or `Memory` the store is closed until it is opened
    /// again, and its files stand for the store with the change or without it.
    pub fn commit<G: Ground>(
        &mut self,
        alloc: Global,
        ground: &mut G,
        change: Change,
        content: Option<Staged>,
    ) -> Result<(), CommitFault>
        requires holds { G.tells → HoldsStore (G.state ground.old) self.old }
        requires accepted { self.old.closed ≡ None → judged self.old change ≡ None }
        requires bytes { self.old.closed ≡ None → HasBytes change }
        requires supplies { self.old.closed ≡ None → Supplies G.tells (G.state ground.old) self.old.contents content (references_of change.edits) }
        ensures accepts { G.tells → self.old.closed ≡ None → (reply : List ℕ) → EndsAs result change reply (shows (G.state ground.old) self.old) (shows (G.state ground.new) self.new)
            (accept self.old.limits (shows (G.state ground.old) self.old) (file_at (G.state ground.old)) change reply) }
        ensures moments { G.tells → self.old.closed ≡ None → (reply : List ℕ)
            → Passes (G.state ground.old) (G.state ground.new) (Committing (G.state ground.old) self.old.limits (shows (G.state ground.old) self.old)
            (accept self.old.limits (shows (G.state ground.old) self.old) (file_at (G.state ground.old)) change reply).stock) }
        ensures left { LeftBy result change self.old self.new }
        ensures closed { (n : ℕ) → IsErrOf result (CommitFault.Closed n) ↔ (self.old.closed ≡ Some n) }
        ensures room { RoomSays result self.old content change (ground.new ≡ ground.old) }
        ensures not_written { OnErr result (result ≢ Err CommitFault.Device → result ≢ Err CommitFault.Memory → ground.new ≡ ground.old) }
        ensures limits { self.new.limits ≡ self.old.limits }
        ensures staging { self.new.contents.staging ≡ self.old.contents.staging }
        ensures contents { G.tells → OnOk result (SameContents (G.state ground.old) (G.state ground.new)) }
        ensures holds { G.tells → HoldsStore (G.state ground.new) self.new }
        ensures durable { G.tells → OnOk result (IsDurable (G.state ground.new)) }
        ensures told { G.tells → (G.state ground.new).told ≡ (G.state ground.old).told }
        ensures disk { Counts (G.disk_faults ground.old) (G.disk_faults ground.new) (IsErrOf result CommitFault.Device) }
        ensures tell { G.tell_faults ground.new ≡ G.tell_faults ground.old }
    {
        if let Some(n) = self.closed {
            return Err(CommitFault::Closed(n));
        }
        let number = self.commits.saturating_add(1);
        // Before the journal is touched, so that a refused change leaves no record.
        let added = added(&change, content);
        if passes(added, self.blobs.kept_length(), self.limits.blobs) {
            return Err(CommitFault::Full(Which::Blobs));
        }
        match write_record(alloc, &mut self.journal, ground, &self.limits, &change) {
            Ok(()) => {}
            Err(RecordFault::Full) => return Err(CommitFault::Full(Which::Journal)),
            // The device may have the record or not, so nothing may follow it.
            Err(RecordFault::Device) => {
                self.closed = Some(number);
                return Err(CommitFault::Device);
            }
            Err(RecordFault::Memory) => {
                self.closed = Some(number);
                return Err(CommitFault::Memory);
            }
        }
        // The record is on the device. Where the rows can't follow they aren't those of the files.
        let limit = self.limits.blobs;
        match take_up(
            alloc,
            &mut self.blobs,
            &mut self.rows,
            limit,
            &change,
            added,
        ) {
            Ok(()) => {}
            Err(_) => {
                self.closed = Some(number);
                return Err(CommitFault::Memory);
            }
        }
        self.commits = number;
        Ok(())
    }

    /// Reads the bytes of a kept content from a place in it on, as far as they fit, and none past its end.
    pub fn content<G: Ground>(
        &mut self,
        ground: &mut G,
        file: &FileRef,
        at: u64,
        buf: &mut [u8],
    ) -> Result<usize, ContentFault>
        requires kept { self.old.closed ≡ None → Contains self.old.contents.kept file.now }
        requires holds { G.tells → HoldsStore (G.state ground.old) self.old }
        ensures within { IfOk result (λ n. n ≤ length buf.old) }
        ensures bytes { G.tells → IfOk result (Reads (bytes_at (G.state ground.old) file.now) at buf.old buf.new) }
        ensures closed { (n : ℕ) → IsErrOf result (ContentFault.Closed n) ↔ (self.old.closed ≡ Some n) }
        ensures unchanged { self.new ≡ self.old }
        ensures holds { G.tells → HoldsStore (G.state ground.new) self.new }
        ensures reads { G.tells → OnlyReads (G.state ground.old) (G.state ground.new) }
        ensures disk { Counts (G.disk_faults ground.old) (G.disk_faults ground.new) (IsErrOf result ContentFault.Device) }
        ensures tell { G.tell_faults ground.new ≡ G.tell_faults ground.old }
    {
        if let Some(n) = self.closed {
            return Err(ContentFault::Closed(n));
        }
        match self.blobs.read(ground, file, at, buf) {
            Err(_) => Err(ContentFault::Device),
            Ok(n) => Ok(n),
        }
    }

    /// Begins a staging with no bytes. One that isn't ended is given up.
    pub fn stage_begin<G: Ground>(&mut self, ground: &G)
        requires { G.tells → HoldsStore (G.state ground.now) self.old }
        ensures rest { self.new ≡ record self.old { contents = record { kept = self.old.contents.kept; staging = self.new.contents.staging } } }
        ensures begun { IsSome self.new.contents.staging }
        ensures length { staged_length self.new.contents.staging ≡ 0 }
        ensures staged { Stages self.new.contents [] }
        ensures holds { G.tells → HoldsStore (G.state ground.now) self.new }
        ensures written { G.tells → HoldsStaged (G.state ground.now) self.new.contents [] }
    {
        let _ = ground;
        self.blobs.stage_begin();
    }

    /// Writes the next bytes of the staged content behind the kept ones, unless its length would pass `max`. After a fault the
    /// staging is given up.
    pub fn stage_piece<G: Ground>(
        &mut self,
        ground: &mut G,
        piece: &[u8],
        max: u64,
    ) -> Result<(), StageFault>
        requires begun { IsSome self.old.contents.staging }
        requires max { max < 2 ^ 62 }
        requires still_open { self.old.closed ≡ None }
        requires holds { G.tells → HoldsStore (G.state ground.old) self.old }
        ensures rest { self.new ≡ record self.old { contents = record { kept = self.old.contents.kept; staging = self.new.contents.staging } } }
        ensures begun { OnOk result (IsSome self.new.contents.staging) }
        ensures length { OnOk result (staged_length self.new.contents.staging ≡ staged_length self.old.contents.staging + length piece.now) }
        ensures staged { OnOk result ((bytes : List ℕ) → Stages self.old.contents bytes → Stages self.new.contents (bytes ++ piece.now)) }
        ensures written { G.tells → OnOk result ((bytes : List ℕ) → HoldsStaged (G.state ground.old) self.old.contents bytes
            → HoldsStaged (G.state ground.new) self.new.contents (bytes ++ piece.now)) }
        ensures given_up { OnErr result (self.new.contents.staging ≡ None) }
        ensures too_large { IsErrOf result StageFault.TooLarge ↔ (max < staged_length self.old.contents.staging + length piece.now) }
        ensures not_written { IsErrOf result StageFault.TooLarge → ground.new ≡ ground.old }
        ensures shows { G.tells → shows (G.state ground.new) self.new ≡ shows (G.state ground.old) self.old }
        ensures holds { G.tells → HoldsStore (G.state ground.new) self.new }
        ensures moments { G.tells → Passes (G.state ground.old) (G.state ground.new) (Standing (G.state ground.old) self.old) }
        ensures told { G.tells → (G.state ground.new).told ≡ (G.state ground.old).told }
        ensures disk { Counts (G.disk_faults ground.old) (G.disk_faults ground.new) (IsErrOf result StageFault.Device) }
        ensures tell { G.tell_faults ground.new ≡ G.tell_faults ground.old }
    {
        self.blobs.stage_piece(ground, piece, max)
    }

    /// Ends the staging, and gives what a commit may keep. The content isn't fresh exactly where a kept one has its bytes and its
    /// three digests, and then the answer is that one. After a fault the staging is given up.
    pub fn stage_end<G: Ground>(&mut self, ground: &mut G) -> Result<Staged, StageFault>
        requires begun { IsSome self.old.contents.staging }
        requires still_open { self.old.closed ≡ None }
        requires holds { G.tells → HoldsStore (G.state ground.old) self.old }
        ensures ended { self.new ≡ record self.old { contents = record { kept = self.old.contents.kept; staging = None } } }
        ensures length { IfOk result (λ s. s.file.len ≡ staged_length self.old.contents.staging) }
        ensures digests { (bytes : List ℕ) → Stages self.old.contents bytes → IfOk result (λ s. s.file.digests ≡ digests_of bytes) }
        ensures content { G.tells → (bytes : List ℕ) → HoldsStaged (G.state ground.old) self.old.contents bytes
            → IfOk result (λ s. bytes_at (G.state ground.new) s.file ≡ bytes) }
        ensures fresh { G.tells → (bytes : List ℕ) → HoldsStaged (G.state ground.old) self.old.contents bytes
            → IfOk result (λ s. s.fresh ≡ false ↔ Contains (shows (G.state ground.old) self.old).holding.kept (record { content = bytes; digests = digests_of bytes })) }
        ensures supplies { (bytes : List ℕ) → (G.tells → HoldsStaged (G.state ground.old) self.old.contents bytes)
            → IfOk result (λ s. Supplies G.tells (G.state ground.new) self.new.contents (Some s) (s.file ∷ [])) }
        ensures holds { G.tells → HoldsStore (G.state ground.new) self.new }
        ensures reads { G.tells → OnlyReads (G.state ground.old) (G.state ground.new) }
        ensures device { OnErr result (result ≡ Err StageFault.Device) }
        ensures disk { Counts (G.disk_faults ground.old) (G.disk_faults ground.new) (IsErrOf result StageFault.Device) }
        ensures tell { G.tell_faults ground.new ≡ G.tell_faults ground.old }
    {
        self.blobs.stage_end(ground)
    }

    /// The row of a key.
    pub fn find(&self, key: &ItemKey) -> Option<&ItemRow>
        ensures row { option_copied result ≡ find_row self.now.rows key.now }
        ensures item { (bytes : List ℕ) → option_map (item_in bytes) (option_copied result) ≡ find_item (items_in bytes self.now.rows) key.now }
        ensures file { IfSome result (λ r. HasFileIn self.now.contents.kept r.now) }
    {
        self.rows.find(key)
    }

    /// The rows, in the default order.
    pub fn items(&self) -> &[ItemRow]
        ensures rows { result.now ≡ self.now.rows }
        ensures order { InOrder self.now.rows }
        ensures files { All (HasFileIn self.now.contents.kept) self.now.rows }
    {
        self.rows.as_slice()
    }

    /// Whether an edit is accepted, which the rows tell alone.
    pub fn accepts(&self, alloc: Global, edit: &Edit) -> Result<bool, AllocError>
        ensures { IfOk result (λ b. b ≡ is_none (edit_refusal self.now.limits edit.now (items_of self.now.rows))) }
    {
        accepts(alloc, &self.limits, edit, &self.rows)
    }

    /// Whether a file stands above the key, or a folder at it.
    pub fn is_barred(&self, key: &ItemKey, folders: &[ItemKey]) -> bool
        requires { folders.now ≡ folders_above key.now }
        ensures { result ≡ (is_some (file_above (items_of self.now.rows) key.now) || has_folder (items_of self.now.rows) key.now) }
    {
        is_barred(&self.rows, key, folders)
    }

    /// Whether the limit of items would be passed with one at the key and the folders above it.
    pub fn passes_limit(&self, key: &ItemKey, folders: &[ItemKey]) -> bool
        requires { folders.now ≡ folders_above key.now }
        ensures { result ≡ passes_limit self.now.limits (items_of self.now.rows) (added_with (items_of self.now.rows) key.now) }
    {
        passes_limit(&self.limits, &self.rows, key, folders)
    }

    /// The limits that it was opened with.
    pub fn limits(&self) -> &Limits
        ensures { result.now ≡ self.now.limits }
    {
        &self.limits
    }

    /// The number of the commit that closed it, counted from 1.
    pub fn closed(&self) -> Option<u64>
        ensures { result ≡ self.now.closed }
    {
        self.closed
    }

    /// How many commits answered Ok since it was opened.
    pub fn commits(&self) -> u64
        ensures { result ≡ self.now.commits }
    {
        self.commits
    }

    /// The length of the journal's used part.
    pub fn used(&self) -> u64
        ensures { result ≡ self.now.used }
    {
        self.journal.length()
    }

    /// The sum of the lengths of the kept contents.
    pub fn kept_length(&self) -> u64
        ensures sum { result ≡ end_of self.now.contents.kept }
        ensures short { result ≤ 2 ^ 62 }
    {
        self.blobs.kept_length()
    }

    /// Each kept content has at most as many bytes as a content may have.
    pub fn kept_are_short(&self)
        ensures { All (λ file. file.len ≤ most_content) self.now.contents.kept }
    {
        let _ = &self.blobs;
    }
}

// Whether a content that is added would pass the limit of kept bytes.
fn passes(added: Option<Staged>, kept: u64, limit: u64) -> bool
    ensures { IsTrue result ↔ IsSomeAnd added (λ s. limit < kept + s.file.len) }
{
    match added {
        None => false,
        Some(staged) => staged.file.len > limit || kept > limit - staged.file.len,
    }
}
