// What a commit does: its record is written, and then it is taken up in memory.
ghost use Rattle.std.specs.Prelude.{◌≡◌, ◌≢◌, ◌↔◌, ◌+◌, ◌^◌, ◌<◌, ◌≤◌, ◌⊎◌, max, true, false, ℕ, List, Ok, Err, IfOk, IfSome, OnOk, OnErr, IsErrOf, IsTrue, All, Contains};
ghost use Rattle.arti_rows.specs.declared.rows.FileRef.{FileRef};
ghost use Rattle.arti_ground.specs.State.{Passes, Counts};
ghost use Rattle.arti_journal.specs.Journal.{HoldsJournal, Appending, Appended};
ghost use Rattle.arti_blobs.specs.Contents.{Contents, end_of};
ghost use Rattle.arti_codec.specs.ChangeBytes as codec;
ghost use Rattle.arti_codec.specs.ChangeBytes.{HasBytes};
ghost use Rattle.arti_model.specs.Apply.{edited_by};
ghost use Rattle.arti_model.specs.Stock.{most_body, body_length, fills_journal};
ghost use Rattle.arti_store.specs.Items.{HasFileIn, items_of};
ghost use Rattle.arti_store.specs.Changes.{edit_references, references_of};
ghost use Rattle.arti_store.specs.Replays.{itself};
ghost use Rattle.arti_store.specs.Commit.{kept_and, MayKeep, AddsSome};

use crate::edits::do_all;
use crate::rows::Rows;
use arti_blobs::{Blobs, KeepFault, Staged};
use arti_codec::encode;
use arti_ground::Ground;
use arti_journal::{AppendFault, FrameFault, Framed, Journal, frame};
use arti_rows::{Change, Edit, FileRef, Limits};
use std::alloc::{AllocError, Global};

/// The staged content, where it is fresh and the change names it.
pub(crate) fn added(change: &Change, content: Option<Staged>) -> Option<Staged>
    ensures { AddsSome (references_of change.now.edits) content result }
{
    match content {
        None => None,
        Some(staged) => {
            if staged.fresh && names(change.edits.as_slice(), &staged.file) {
                Some(staged)
            } else {
                None
            }
        }
    }
}

// Whether one of the edits names a content.
fn names(edits: &[Edit], wanted: &FileRef) -> bool
    ensures { IsTrue result ↔ Contains (references_of edits.now) wanted.now }
{
    for edit in edits {
        if is_named(edit, wanted) {
            return true;
        }
    }
    false
}

// Whether an edit names a content.
fn is_named(edit: &Edit, wanted: &FileRef) -> bool
    ensures { IsTrue result ↔ Contains (edit_references edit.now) wanted.now }
{
    match edit {
        Edit::File { file, .. } => *file == *wanted,
        _ => false,
    }
}

/// Why a record wasn't written.
pub(crate) enum RecordFault {
    Full,
    Device,
    Memory,
}

/// Writes the record of a change behind those of the journal, where there is room for it.
pub(crate) fn write_record<G: Ground>(
    alloc: Global,
    journal: &mut Journal,
    ground: &mut G,
    limits: &Limits,
    change: &Change,
) -> Result<(), RecordFault>
    requires bytes { HasBytes change.now }
    requires holds { G.tells → (bodies : List (List ℕ)) × HoldsJournal (G.state ground.old) journal.old.file journal.old.used bodies }
    ensures ok { G.tells → OnOk result ((bodies : List (List ℕ)) → HoldsJournal (G.state ground.old) journal.old.file journal.old.used bodies
        → Appended (G.state ground.old) (G.state ground.new) journal.old.file journal.old.used bodies (codec.change.spell change.now)) }
    ensures longer { OnOk result (journal.new ≡ record journal.old { used = journal.old.used + 5 + body_length change.now }) }
    ensures unchanged { OnErr result (journal.new ≡ journal.old) }
    ensures full { result ≡ Err RecordFault.Full → fills_journal limits.now journal.old.used change.now ≡ true }
    ensures room { (result ≡ Ok tt) ⊎ (result ≡ Err RecordFault.Device) → fills_journal limits.now journal.old.used change.now ≡ false }
    ensures not_written { (result ≡ Err RecordFault.Full) ⊎ (result ≡ Err RecordFault.Memory) → ground.new ≡ ground.old }
    ensures moments { G.tells → (bodies : List (List ℕ)) → HoldsJournal (G.state ground.old) journal.old.file journal.old.used bodies
        → Passes (G.state ground.old) (G.state ground.new) (Appending (G.state ground.old) journal.old.file bodies (codec.change.spell change.now)) }
    ensures told { G.tells → (G.state ground.new).told ≡ (G.state ground.old).told }
    ensures disk { Counts (G.disk_faults ground.old) (G.disk_faults ground.new) (IsErrOf result RecordFault.Device) }
    ensures tell { G.tell_faults ground.new ≡ G.tell_faults ground.old }
{
    let framed = frame_change(alloc, change)?;
    match journal.append(ground, &framed, limits.journal) {
        Ok(()) => Ok(()),
        Err(AppendFault::Full) => Err(RecordFault::Full),
        Err(AppendFault::Device) => Err(RecordFault::Device),
    }
}

// The body of a change in its frame.
fn frame_change(alloc: Global, change: &Change) -> Result<Framed, RecordFault>
    requires { HasBytes change.now }
    ensures body { IfOk result (λ f. f ≡ codec.change.spell change.now) }
    ensures fits { IfOk result (λ f. body_length change.now ≤ most_body) }
    ensures too_long { result ≡ Err RecordFault.Full → most_body < body_length change.now }
    ensures no_device { result ≢ Err RecordFault.Device }
{
    let body = match encode(alloc, change) {
        Err(_) => return Err(RecordFault::Memory),
        Ok(body) => body,
    };
    match frame(alloc, body) {
        Ok(framed) => Ok(framed),
        Err(FrameFault::TooLong) => Err(RecordFault::Full),
        Err(FrameFault::Memory) => Err(RecordFault::Memory),
        Err(FrameFault::Empty) => unreachable!(),
    }
}

/// Keeps the added content, and does the edits. After an `Err` some of it was done.
pub(crate) fn take_up(
    alloc: Global,
    blobs: &mut Blobs,
    rows: &mut Rows,
    limit: u64,
    change: &Change,
    added: Option<Staged>,
) -> Result<(), AllocError>
    requires may { MayKeep blobs.old added }
    requires room { IfSome added (λ s. end_of blobs.old.kept + s.file.len ≤ limit) }
    requires files { All (HasFileIn blobs.old.kept) rows.old }
    requires references { All (Contains (kept_and blobs.old.kept added)) (references_of change.now.edits) }
    ensures kept { OnOk result (blobs.new.kept ≡ kept_and blobs.old.kept added) }
    ensures either { (blobs.new.kept ≡ blobs.old.kept) ⊎ (blobs.new.kept ≡ kept_and blobs.old.kept added) }
    ensures staging { blobs.new.staging ≡ blobs.old.staging }
    ensures rows { OnOk result (items_of rows.new ≡ edited_by itself change.now.moment change.now.user change.now.edits (items_of rows.old)) }
    ensures files { All (HasFileIn blobs.new.kept) rows.new }
    ensures short { end_of blobs.new.kept ≤ max (end_of blobs.old.kept) limit }
{
    keep_added(blobs, added, limit)?;
    do_all(alloc, rows, change)
}

// Keeps the added content, for which there is room.
fn keep_added(blobs: &mut Blobs, added: Option<Staged>, limit: u64) -> Result<(), AllocError>
    requires may { MayKeep blobs.old added }
    requires room { IfSome added (λ s. end_of blobs.old.kept + s.file.len ≤ limit) }
    ensures kept { OnOk result (blobs.new.kept ≡ kept_and blobs.old.kept added) }
    ensures unchanged { OnErr result (blobs.new ≡ blobs.old) }
    ensures staging { blobs.new.staging ≡ blobs.old.staging }
    ensures short { end_of blobs.new.kept ≤ max (end_of blobs.old.kept) limit }
{
    match added {
        None => Ok(()),
        Some(staged) => match blobs.keep(&staged, limit) {
            Ok(()) => Ok(()),
            Err(KeepFault::Memory) => Err(AllocError),
            Err(KeepFault::Full) => unreachable!(),
        },
    }
}
