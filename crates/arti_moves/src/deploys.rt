// Deploys: of a staged content, or of the first one that has the digests.
ghost use Rattle.std.specs.Prelude.{◌≡◌, ◌≤◌, length, option_map, Some, None, false};
ghost use Rattle.arti_rows.specs.Sizes.{most_content};
ghost use Rattle.arti_rows.specs.declared.refusal.Refusal.TheVariants as refusals;
ghost use Rattle.arti_codec.specs.ChangeBytes.{properties, HasBytes};
ghost use Rattle.arti_model.specs.Deploys.{mismatch};
ghost use Rattle.arti_model.specs.DecideItems.{decide_deploy, decide_found, unless, bars};
ghost use Rattle.arti_catalog.specs.Held.{items_in};
ghost use Rattle.arti_catalog.specs.Judged.{Judges};
ghost use Rattle.arti_moves.specs.Moves.{by_reference, change_in, decide_content, content_in, IsShort, Plans, OfChange};

use crate::bytes::{file_has_bytes, key_has_bytes};
use crate::edits::{file_edit, one_change};
use crate::settling::{settle, sooner};
use arti_catalog::Catalog;
use arti_route::mismatch;
use arti_rows::{
    Change, Digests, FileRef, ItemKey, Moment, Property, Refusal, Seq, SomeDigests, Text,
};
use std::alloc::Global;

/// Of a deploy.
pub(crate) fn plan_deploy(
    alloc: Global,
    catalog: &Catalog,
    key: &ItemKey,
    props: &Seq<Property>,
    digests: &SomeDigests,
    file: &Option<FileRef>,
    moment: Moment,
    user: &str,
) -> Result<Option<Change>, Refusal>
    ensures plan { Plans result (change_in (decide_content catalog.now.limits (items_in catalog.now) moment user.now key.now props.now digests.now file.now)) }
    ensures bytes { (properties 1024).keeps props.now × IsShort (content_in (items_in catalog.now) digests.now file.now) → length user.now ≤ 4096 → OfChange HasBytes result }
{
    match file {
        Some(file) => plan_sent(alloc, catalog, key, props, digests, *file, moment, user),
        None => plan_named(alloc, catalog, key, props, digests, moment, user),
    }
}

// Of the content that was staged.
fn plan_sent(
    alloc: Global,
    catalog: &Catalog,
    key: &ItemKey,
    props: &Seq<Property>,
    digests: &SomeDigests,
    file: FileRef,
    moment: Moment,
    user: &str,
) -> Result<Option<Change>, Refusal>
    ensures plan { Plans result (change_in (decide_deploy by_reference catalog.now.limits (items_in catalog.now) moment user.now key.now props.now digests.now false file)) }
    ensures bytes { (properties 1024).keeps props.now → file.len ≤ most_content → length user.now ≤ 4096 → OfChange HasBytes result }
{
    key_has_bytes(key);
    file_has_bytes(&file);
    let edit = file_edit(key, digests, file, props)?;
    let change = one_change(alloc, moment, user, edit)?;
    let judged = judge_digests(alloc, digests, &file.digests);
    let checked = catalog.check(alloc, &change);
    settle(sooner(judged, checked), change)
}

// The content has the digests that are wanted.
fn judge_digests(alloc: Global, wanted: &SomeDigests, digests: &Digests) -> Result<(), Refusal>
    ensures { Judges result (option_map refusals.ChecksumMismatch (mismatch wanted.now digests.now)) }
{
    if let Some(name) = mismatch(wanted, digests) {
        return Err(Refusal::ChecksumMismatch(Text::from_str(alloc, name)?));
    }
    Ok(())
}

// Of the first content that has the digests.
fn plan_named(
    alloc: Global,
    catalog: &Catalog,
    key: &ItemKey,
    props: &Seq<Property>,
    digests: &SomeDigests,
    moment: Moment,
    user: &str,
) -> Result<Option<Change>, Refusal>
    ensures plan { Plans result (change_in (decide_content catalog.now.limits (items_in catalog.now) moment user.now key.now props.now digests.now None)) }
    ensures bytes { (properties 1024).keeps props.now × IsShort (content_in (items_in catalog.now) digests.now None) → length user.now ≤ 4096 → OfChange HasBytes result }
{
    match catalog.file_with(digests) {
        Some(file) => plan_found(alloc, catalog, key, props, digests, *file, moment, user),
        None => plan_nothing(alloc, catalog, key, props, digests, moment, user),
    }
}

// Of a content that was found.
fn plan_found(
    alloc: Global,
    catalog: &Catalog,
    key: &ItemKey,
    props: &Seq<Property>,
    digests: &SomeDigests,
    file: FileRef,
    moment: Moment,
    user: &str,
) -> Result<Option<Change>, Refusal>
    ensures plan { Plans result (change_in (unless (bars (items_in catalog.now) key.now) (decide_found by_reference catalog.now.limits (items_in catalog.now) moment user.now key.now props.now digests.now (Some file)))) }
    ensures bytes { (properties 1024).keeps props.now → file.len ≤ most_content → length user.now ≤ 4096 → OfChange HasBytes result }
{
    key_has_bytes(key);
    file_has_bytes(&file);
    let edit = file_edit(key, digests, file, props)?;
    let change = one_change(alloc, moment, user, edit)?;
    let checked = catalog.check(alloc, &change);
    settle(checked, change)
}

// Where no content was found. What bars a deploy is the same for each content, so an empty one is judged.
fn plan_nothing(
    alloc: Global,
    catalog: &Catalog,
    key: &ItemKey,
    props: &Seq<Property>,
    digests: &SomeDigests,
    moment: Moment,
    user: &str,
) -> Result<Option<Change>, Refusal>
    ensures plan { Plans result (change_in (unless (bars (items_in catalog.now) key.now) (decide_found by_reference catalog.now.limits (items_in catalog.now) moment user.now key.now props.now digests.now None))) }
    ensures bytes { (properties 1024).keeps props.now → length user.now ≤ 4096 → OfChange HasBytes result }
{
    key_has_bytes(key);
    let file = empty();
    file_has_bytes(&file);
    let edit = file_edit(key, digests, file, props)?;
    let change = one_change(alloc, moment, user, edit)?;
    let checked = catalog.check(alloc, &change);
    settle(sooner(Err(Refusal::NoContent), checked), change)
}

// The reference of an empty content.
fn empty() -> FileRef
    ensures { result.len ≡ 0 }
{
    FileRef {
        place: 0,
        len: 0,
        digests: Digests {
            md5: [0; 16],
            sha1: [0; 20],
            sha256: [0; 32],
        },
    }
}
