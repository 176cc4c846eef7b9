// Recovery: what a journal's changes leave is done again, and the contents that they name are looked for.
ghost use Rattle.std.specs.Prelude.{◌≡◌, ◌++◌, ◌+◌, ◌^◌, ◌<◌, ◌≤◌, ℕ, List, [], length, None, true, is_none, IfOk, IfSome, OnOk, IsErrOf, IsTrue};
ghost use Rattle.arti_rows.specs.Sizes.{contents_file};
ghost use Rattle.arti_rows.specs.declared.rows.FileRef.{FileRef};
ghost use Rattle.arti_ground.specs.State.{OnlyReads, Counts};
ghost use Rattle.arti_journal.specs.Journal.{bodies_of};
ghost use Rattle.arti_blobs.specs.Contents.{end_of, Keeps};
ghost use Rattle.arti_model.specs.Apply.{edited, edited_by, edit_refusal, edits_refusal};
ghost use Rattle.arti_store.specs.Items.{items_of};
ghost use Rattle.arti_store.specs.Changes.{edit_references, references_of};
ghost use Rattle.arti_store.specs.Replays.{itself, is_accepted, Replays, ReplaysNot};
ghost use Rattle.arti_store.specs.Store.{AreDistinct};

use crate::OpenFault;
use crate::edits::do_one;
use crate::judging::accepts;
use crate::rows::Rows;
use arti_blobs::Blobs;
use arti_codec::{DecodeFault, bytes_are_of_one_change, decode};
use arti_ground::Ground;
use arti_rows::{CONTENTS_FILE, Change, Edit, FileRef, Limits, Moment, Text};
use std::alloc::{AllocError, Global};

/// The rows that the changes of a journal leave, and the contents that they name. None where a body is no change, or a change
/// isn't accepted after those before it.
pub(crate) fn replay(
    alloc: Global,
    limits: &Limits,
    bodies: &[Vec<u8>],
) -> Result<Option<(Rows, Vec<FileRef>)>, AllocError>
    ensures done { IfOk result (λ r. IfSome r (λ x. Replays limits.now (bodies_of bodies.now) (items_of x.0) x.1.items)) }
    ensures none { IfOk result (λ r. r ≡ None → ReplaysNot limits.now (bodies_of bodies.now)) }
{
    bytes_are_of_one_change();
    let mut rows = Rows::new(alloc);
    let mut files = Vec::new(alloc);
    'bodies: for body in bodies {
        match decode(alloc, body) {
            Err(DecodeFault::NotAChange) => return Ok(None),
            Err(DecodeFault::Memory) => return Err(AllocError),
            Ok(change) => {
                if !redo(alloc, limits, &mut rows, &mut files, &change)? {
                    return Ok(None);
                }
            }
        }
    }
    Ok(Some((rows, files)))
}

// Does a change again, or tells that it isn't accepted.
fn redo(
    alloc: Global,
    limits: &Limits,
    rows: &mut Rows,
    files: &mut Vec<FileRef>,
    change: &Change,
) -> Result<bool, AllocError>
    ensures accepted { IfOk result (λ b. b ≡ is_accepted limits.now itself change.now (items_of rows.old)) }
    ensures rows { IfOk result (λ b. IsTrue b → items_of rows.new ≡ edited_by itself change.now.moment change.now.user change.now.edits (items_of rows.old)) }
    ensures files { IfOk result (λ b. IsTrue b → files.new.items ≡ files.old.items ++ references_of change.now.edits) }
{
    redo_each(
        alloc,
        limits,
        rows,
        files,
        change.moment,
        &change.user,
        change.edits.as_slice(),
    )
}

// Does edits again, or tells that one isn't accepted.
fn redo_each(
    alloc: Global,
    limits: &Limits,
    rows: &mut Rows,
    files: &mut Vec<FileRef>,
    moment: Moment,
    user: &Text,
    edits: &[Edit],
) -> Result<bool, AllocError>
    ensures accepted { IfOk result (λ b. b ≡ is_none (edits_refusal limits.now itself moment user.now edits.now (items_of rows.old))) }
    ensures rows { IfOk result (λ b. IsTrue b → items_of rows.new ≡ edited_by itself moment user.now edits.now (items_of rows.old)) }
    ensures files { IfOk result (λ b. IsTrue b → files.new.items ≡ files.old.items ++ references_of edits.now) }
{
    for edit in edits {
        if !redo_one(alloc, limits, rows, files, moment, user, edit)? {
            return Ok(false);
        }
    }
    Ok(true)
}

// Does an edit again, or tells that it isn't accepted.
fn redo_one(
    alloc: Global,
    limits: &Limits,
    rows: &mut Rows,
    files: &mut Vec<FileRef>,
    moment: Moment,
    user: &Text,
    edit: &Edit,
) -> Result<bool, AllocError>
    ensures accepted { IfOk result (λ b. b ≡ is_none (edit_refusal limits.now edit.now (items_of rows.old))) }
    ensures rows { IfOk result (λ b. IsTrue b → items_of rows.new ≡ edited itself moment user.now edit.now (items_of rows.old)) }
    ensures files { IfOk result (λ b. IsTrue b → files.new.items ≡ files.old.items ++ edit_references edit.now) }
{
    match judge(alloc, limits, rows, files, edit) {
        Ok(true) => match do_one(alloc, rows, moment, user, edit) {
            Ok(()) => Ok(true),
            Err(fault) => Err(fault),
        },
        other => other,
    }
}

// Whether an edit is accepted. The contents that it names are put behind others.
fn judge(
    alloc: Global,
    limits: &Limits,
    rows: &Rows,
    files: &mut Vec<FileRef>,
    edit: &Edit,
) -> Result<bool, AllocError>
    ensures accepted { IfOk result (λ b. b ≡ is_none (edit_refusal limits.now edit.now (items_of rows.now))) }
    ensures files { OnOk result (files.new.items ≡ files.old.items ++ edit_references edit.now) }
{
    note(files, edit)?;
    accepts(alloc, limits, edit, rows)
}

// Puts the contents that an edit names behind others.
fn note(files: &mut Vec<FileRef>, edit: &Edit) -> Result<(), AllocError>
    ensures { OnOk result (files.new.items ≡ files.old.items ++ edit_references edit.now) }
{
    if let Edit::File { file, .. } = edit {
        files.push(*file)?;
    }
    Ok(())
}

/// The contents of these references, each the same as an earlier one or placed where those before it end. They lie within their file,
/// and no pair of a content and its digests stands twice.
pub(crate) fn open_contents<G: Ground>(
    alloc: Global,
    ground: &mut G,
    files: &[FileRef],
) -> Result<Blobs, OpenFault>
    ensures keeps { IfOk result (λ b. Keeps [] files.now b.kept) }
    ensures short { IfOk result (λ b. end_of b.kept ≤ 2 ^ 62) }
    ensures staging { IfOk result (λ b. b.staging ≡ None) }
    ensures within { G.tells → IfOk result (λ b. end_of b.kept ≤ length ((G.state ground.old).files contents_file)) }
    ensures distinct { G.tells → IfOk result (λ b. AreDistinct ((G.state ground.old).files contents_file) b.kept) }
    ensures none { G.tells → IsErrOf result OpenFault.NotAStore → (all : List FileRef) → Keeps [] files.now all → end_of all ≤ 2 ^ 62
        → end_of all ≤ length ((G.state ground.old).files contents_file) → AreDistinct ((G.state ground.old).files contents_file) all → ⊥ }
    ensures reads { G.tells → OnlyReads (G.state ground.old) (G.state ground.new) }
    ensures disk { Counts (G.disk_faults ground.old) (G.disk_faults ground.new) (IsErrOf result OpenFault.Device) }
    ensures tell { G.tell_faults ground.new ≡ G.tell_faults ground.old }
{
    let mut blobs = match Blobs::checked(alloc, files)? {
        None => return Err(OpenFault::NotAStore),
        Some(blobs) => blobs,
    };
    let size = ground.length(CONTENTS_FILE)?;
    if blobs.kept_length() > size {
        return Err(OpenFault::NotAStore);
    }
    match blobs.all_differ(ground) {
        Err(_) => Err(OpenFault::Device),
        Ok(false) => Err(OpenFault::NotAStore),
        Ok(true) => Ok(blobs),
    }
}
