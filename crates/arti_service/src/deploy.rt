// What is decided of a deploy.
ghost use Rattle.std.specs.Prelude.{◌≡◌, ◌∷◌, [], ◌≤◌, ℕ, List, length, Option, Some, None, IfOk};
ghost use Rattle.arti_rows.specs.Sizes.{most_content};
ghost use Rattle.arti_codec.specs.ChangeBytes.{HasBytes};
ghost use Rattle.arti_blobs.specs.declared.staging.Staged.{Staged};
ghost use Rattle.arti_model.specs.Store.{File, find_item, local_key};
ghost use Rattle.arti_model.specs.Apply.{deployed};
ghost use Rattle.arti_model.specs.Bodies.{deploy_body};
ghost use Rattle.arti_model.specs.Deploys.{given_of};
ghost use Rattle.arti_model.specs.Decide.{anonymous};
ghost use Rattle.arti_model.specs.Decide as model;
ghost use Rattle.arti_rows.specs.declared.edits.Edit.TheVariants as edits;
ghost use Rattle.arti_store.specs.Items.{file_in, items_in};
ghost use Rattle.arti_store.specs.Commit.{MayName};
ghost use Rattle.arti_service.specs.Decisions.{Decides, decided_in};
ghost use Rattle.arti_service.specs.Judged.{IsFree, file_over};

use crate::bytes::deploy_has_bytes;
use crate::decision::{Body, Decision, Reply};
use crate::looking::file_with;
use crate::replies;
use arti_blobs::Staged;
use arti_route::{given_of, mismatch};
use arti_rows::{Change, Edit, FileRef, ItemKey, Moment, Refusal, Seq, SomeDigests, Text};
use arti_store::Store;
use std::alloc::{AllocError, Global};

// The change of a deploy.
fn deploy_change(
    alloc: Global,
    moment: Moment,
    key: ItemKey,
    wanted: &SomeDigests,
    file: FileRef,
) -> Result<Change, AllocError>
    requires { file.len ≤ 67108864 }
    ensures change { IfOk result (λ c. c ≡ record { moment = moment; user = anonymous; edits = edits.File key (given_of wanted.now) file [] ∷ [] }) }
    ensures bytes { IfOk result HasBytes }
{
    let user = Text::from_str(alloc, "anonymous")?;
    deploy_has_bytes(moment, &user, &key, given_of(wanted), &file);
    let mut edits = Seq::new(alloc);
    edits.push(Edit::File {
        key,
        given: given_of(wanted),
        file,
        props: Seq::new(alloc),
    })?;
    Ok(Change {
        moment,
        user,
        edits,
    })
}

// The body that answers a deploy of that content. A file that was there before tells when and by whom the item was created.
fn deploy_body(
    alloc: Global,
    store: &Store,
    moment: Moment,
    key: &ItemKey,
    wanted: &SomeDigests,
    file: &FileRef,
) -> Result<Vec<u8>, AllocError>
    ensures { IfOk result (λ v. (bytes : List ℕ) → length (file_in bytes file.now).content ≡ file.now.len
        → v.items ≡ deploy_body (deployed moment anonymous key.now (given_of wanted.now) (file_in bytes file.now) [] (find_item (items_in bytes store.now.rows) key.now)) (file_in bytes file.now)) }
{
    match store.find(key) {
        None => replies::deployed(alloc, key, moment, "anonymous", file.len, &file.digests),
        Some(row) => replies::deployed(
            alloc,
            key,
            row.created,
            row.created_by.as_str(),
            file.len,
            &file.digests,
        ),
    }
}

// A deploy of that content, a kept one or the one that was staged, to a key where nothing is in the way.
fn decide_file(
    alloc: Global,
    store: &Store,
    key: ItemKey,
    folders: &[ItemKey],
    wanted: &SomeDigests,
    file: FileRef,
    moment: Moment,
) -> Result<Decision, AllocError>
    requires local { key.repo ≡ local_key }
    requires folders { folders.now ≡ folders_above key }
    requires free { IsFree store.now key }
    requires short { file.len ≤ 67108864 }
    ensures { (staged : Option Staged) → MayName store.now.contents.kept staged file
        → IfOk result (Decides store.now staged (λ bytes. file_over bytes store.now moment key wanted.now (file_in bytes file))) }
{
    if store.passes_limit(&key, folders) {
        return Ok(Decision::Refused(Refusal::NotYet(None)));
    }
    let body = deploy_body(alloc, store, moment, &key, wanted, &file)?;
    let change = deploy_change(alloc, moment, key, wanted, file)?;
    let reply = Reply {
        status: 201,
        body: Body::Json(body),
    };
    Ok(Decision::Makes(change, reply))
}

ghost use Rattle.arti_rows.specs.Key.{folders_above};

/// What is decided of a deploy of the content that was sent and staged.
pub fn decide_deploy(
    alloc: Global,
    store: &Store,
    key: ItemKey,
    wanted: &SomeDigests,
    sent: &Staged,
    moment: Moment,
) -> Result<Decision, AllocError>
    requires local { key.repo ≡ local_key }
    requires short { sent.now.file.len ≤ 67108864 }
    ensures { (body : List ℕ) → IfOk result (Decides store.now (Some sent.now) (λ bytes. decided_in bytes store.now (model.Deploy key wanted.now) body (file_in bytes sent.now.file) moment)) }
{
    let folders = key.folders(alloc)?;
    if store.is_barred(&key, &folders) {
        return Ok(Decision::Refused(Refusal::NotYet(None)));
    }
    if let Some(name) = mismatch(wanted, &sent.file.digests) {
        let name = Text::from_str(alloc, name)?;
        return Ok(Decision::Refused(Refusal::ChecksumMismatch(name)));
    }
    decide_file(alloc, store, key, &folders, wanted, sent.file, moment)
}

/// What is decided of a deploy of the first content that has the digests.
pub fn decide_deploy_found(
    alloc: Global,
    store: &Store,
    key: ItemKey,
    wanted: &SomeDigests,
    moment: Moment,
) -> Result<Decision, AllocError>
    requires { key.repo ≡ local_key }
    ensures { (body : List ℕ) (sent : File) → IfOk result (Decides store.now None (λ bytes. decided_in bytes store.now (model.DeployFound key wanted.now) body sent moment)) }
{
    let folders = key.folders(alloc)?;
    if store.is_barred(&key, &folders) {
        return Ok(Decision::Refused(Refusal::NotYet(None)));
    }
    let Some(file) = file_with(store, wanted) else {
        return Ok(Decision::Refused(Refusal::NoContent));
    };
    store.kept_are_short();
    decide_file(alloc, store, key, &folders, wanted, file, moment)
}
