// What each route asks.
ghost use Rattle.std.specs.Prelude.{◌≡◌, ◌≢◌, Ok, Err, IfOk, IfErr, []};
ghost use Rattle.arti_model.specs.Asks.{row_read, deploy_row, digests_read, info_row, set_row, drop_row, copy_row, move_row, define_row, build_row, promote_row, drop_builds_row};
ghost use Rattle.arti_wire.specs.Fields.{texts_of};
ghost use Rattle.arti_model.specs.declared.asks.Route.TheVariants as route;
ghost use Rattle.arti_rows.specs.declared.refusal.Refusal.TheVariants as refusal;

use crate::digests::lacks_digest;
use crate::fields::{bad_header, is_checksum_deploy, wanted_digests};
use crate::names::{api_item, build, build_text, item, repo};
use crate::places::moved;
use crate::queries::{build_numbers, flag, needed, param_of};
use crate::routes::segment;
use crate::target::Target;
use arti_model::{AskRow, Route};
use arti_rows::{Refusal, SomeDigests, Text};
use arti_wire::Field;
use std::alloc::{AllocError, Global};

// The digests of a deploy.
fn digests(alloc: Global, fields: &[Field]) -> Result<SomeDigests, Refusal>
    ensures ok { IfOk result (λ r. digests_read (texts_of fields.now) ≡ Ok r) }
    ensures refused { IfErr result (λ why. why ≢ refusal.Memory → digests_read (texts_of fields.now) ≡ Err why) }
{
    if let Some(name) = bad_header(fields) {
        return Err(Refusal::BadHeader(Text::from_str(alloc, name)?));
    }
    let wanted = wanted_digests(fields);
    if is_checksum_deploy(fields) && lacks_digest(&wanted) {
        return Err(Refusal::ChecksumMissing);
    }
    Ok(wanted)
}

fn deploy(alloc: Global, target: &Target, fields: &[Field]) -> Result<AskRow, Refusal>
    ensures ok { IfOk result (λ r. deploy_row target.now (texts_of fields.now) ≡ Ok r) }
    ensures refused { IfErr result (λ why. why ≢ refusal.Memory → deploy_row target.now (texts_of fields.now) ≡ Err why) }
{
    let digests = digests(alloc, fields)?;
    let key = item(alloc, target)?;
    let props = target.text.clone()?;
    let checksum = is_checksum_deploy(fields);
    Ok(AskRow::Deploy {
        key,
        props,
        digests,
        checksum,
    })
}

fn info(alloc: Global, target: &Target) -> Result<AskRow, Refusal>
    ensures ok { IfOk result (λ r. info_row target.now ≡ Ok r) }
    ensures refused { IfErr result (λ why. why ≢ refusal.Memory → info_row target.now ≡ Err why) }
{
    let key = api_item(alloc, target)?;
    match param_of(target, "properties") {
        None => Ok(AskRow::Info { key }),
        Some(keys) => {
            let keys = keys.clone()?;
            Ok(AskRow::GetProps { key, keys })
        }
    }
}

fn set_props(alloc: Global, target: &Target) -> Result<AskRow, Refusal>
    ensures ok { IfOk result (λ r. set_row target.now ≡ Ok r) }
    ensures refused { IfErr result (λ why. why ≢ refusal.Memory → set_row target.now ≡ Err why) }
{
    let props = needed(alloc, target, "properties")?;
    let deep = flag(alloc, target, "recursive", true)?;
    let key = api_item(alloc, target)?;
    Ok(AskRow::SetProps { key, props, deep })
}

fn drop_props(alloc: Global, target: &Target) -> Result<AskRow, Refusal>
    ensures ok { IfOk result (λ r. drop_row target.now ≡ Ok r) }
    ensures refused { IfErr result (λ why. why ≢ refusal.Memory → drop_row target.now ≡ Err why) }
{
    let keys = needed(alloc, target, "properties")?;
    let deep = flag(alloc, target, "recursive", true)?;
    let key = api_item(alloc, target)?;
    Ok(AskRow::DropProps { key, keys, deep })
}

fn copy(alloc: Global, target: &Target) -> Result<AskRow, Refusal>
    ensures ok { IfOk result (λ r. copy_row target.now ≡ Ok r) }
    ensures refused { IfErr result (λ why. why ≢ refusal.Memory → copy_row target.now ≡ Err why) }
{
    let (from, to, dry) = moved(alloc, target)?;
    Ok(AskRow::Copy { from, to, dry })
}

fn move_to(alloc: Global, target: &Target) -> Result<AskRow, Refusal>
    ensures ok { IfOk result (λ r. move_row target.now ≡ Ok r) }
    ensures refused { IfErr result (λ why. why ≢ refusal.Memory → move_row target.now ≡ Err why) }
{
    let (from, to, dry) = moved(alloc, target)?;
    Ok(AskRow::Move { from, to, dry })
}

fn define(alloc: Global, target: &Target, update: bool) -> Result<AskRow, Refusal>
    ensures ok { IfOk result (λ r. define_row target.now update ≡ Ok r) }
    ensures refused { IfErr result (λ why. why ≢ refusal.Memory → define_row target.now update ≡ Err why) }
{
    let repo = repo(alloc, segment(target.segments.as_slice(), 2))?;
    Ok(AskRow::Define { repo, update })
}

fn get_repo(alloc: Global, target: &Target) -> Result<AskRow, Refusal>
    ensures ok { IfOk result (λ r. row_read route.GetRepo target.now [] ≡ Ok r) }
    ensures refused { IfErr result (λ why. why ≢ refusal.Memory → row_read route.GetRepo target.now [] ≡ Err why) }
{
    let repo = repo(alloc, segment(target.segments.as_slice(), 2))?;
    Ok(AskRow::GetRepo { repo })
}

fn get_build(alloc: Global, target: &Target) -> Result<AskRow, Refusal>
    ensures ok { IfOk result (λ r. build_row target.now ≡ Ok r) }
    ensures refused { IfErr result (λ why. why ≢ refusal.Memory → build_row target.now ≡ Err why) }
{
    let (name, number) = build(alloc, target.segments.as_slice(), 2)?;
    Ok(AskRow::GetBuild { name, number })
}

fn promote(alloc: Global, target: &Target) -> Result<AskRow, Refusal>
    ensures ok { IfOk result (λ r. promote_row target.now ≡ Ok r) }
    ensures refused { IfErr result (λ why. why ≢ refusal.Memory → promote_row target.now ≡ Err why) }
{
    let (name, number) = build(alloc, target.segments.as_slice(), 3)?;
    Ok(AskRow::Promote { name, number })
}

fn drop_builds(alloc: Global, target: &Target) -> Result<AskRow, Refusal>
    ensures ok { IfOk result (λ r. drop_builds_row target.now ≡ Ok r) }
    ensures refused { IfErr result (λ why. why ≢ refusal.Memory → drop_builds_row target.now ≡ Err why) }
{
    let numbers = needed(alloc, target, "buildNumbers")?;
    let artifacts = flag(alloc, target, "artifacts", false)?;
    let all = flag(alloc, target, "deleteAll", false)?;
    let name = build_text(alloc, segment(target.segments.as_slice(), 2))?;
    let numbers = build_numbers(alloc, numbers.as_str())?;
    Ok(AskRow::DropBuilds {
        name,
        numbers,
        artifacts,
        all,
    })
}

fn folder(alloc: Global, target: &Target) -> Result<AskRow, Refusal>
    ensures ok { IfOk result (λ r. row_read route.Folder target.now [] ≡ Ok r) }
    ensures refused { IfErr result (λ why. why ≢ refusal.Memory → row_read route.Folder target.now [] ≡ Err why) }
{
    let key = item(alloc, target)?;
    Ok(AskRow::Folder { key })
}

fn fetch(alloc: Global, target: &Target) -> Result<AskRow, Refusal>
    ensures ok { IfOk result (λ r. row_read route.Fetch target.now [] ≡ Ok r) }
    ensures refused { IfErr result (λ why. why ≢ refusal.Memory → row_read route.Fetch target.now [] ≡ Err why) }
{
    let key = item(alloc, target)?;
    Ok(AskRow::Fetch { key })
}

fn head(alloc: Global, target: &Target) -> Result<AskRow, Refusal>
    ensures ok { IfOk result (λ r. row_read route.Head target.now [] ≡ Ok r) }
    ensures refused { IfErr result (λ why. why ≢ refusal.Memory → row_read route.Head target.now [] ≡ Err why) }
{
    let key = item(alloc, target)?;
    Ok(AskRow::Head { key })
}

fn delete(alloc: Global, target: &Target) -> Result<AskRow, Refusal>
    ensures ok { IfOk result (λ r. row_read route.Delete target.now [] ≡ Ok r) }
    ensures refused { IfErr result (λ why. why ≢ refusal.Memory → row_read route.Delete target.now [] ≡ Err why) }
{
    let key = item(alloc, target)?;
    Ok(AskRow::Delete { key })
}

/// What a route asks.
pub fn row_of(
    alloc: Global,
    route: Route,
    target: &Target,
    fields: &[Field],
) -> Result<AskRow, Refusal>
    ensures ok { IfOk result (λ r. row_read route target.now (texts_of fields.now) ≡ Ok r) }
    ensures refused { IfErr result (λ why. why ≢ refusal.Memory → row_read route target.now (texts_of fields.now) ≡ Err why) }
{
    match route {
        Route::Deploy => deploy(alloc, target, fields),
        Route::Folder => folder(alloc, target),
        Route::Fetch => fetch(alloc, target),
        Route::Head => head(alloc, target),
        Route::Delete => delete(alloc, target),
        Route::Info => info(alloc, target),
        Route::SetProps => set_props(alloc, target),
        Route::DropProps => drop_props(alloc, target),
        Route::Copy => copy(alloc, target),
        Route::Move => move_to(alloc, target),
        Route::Define => define(alloc, target, false),
        Route::Redefine => define(alloc, target, true),
        Route::GetRepo => get_repo(alloc, target),
        Route::ListRepos => Ok(AskRow::ListRepos),
        Route::Ping => Ok(AskRow::Ping),
        Route::PutBuild => Ok(AskRow::PutBuild),
        Route::GetBuild => get_build(alloc, target),
        Route::DropBuilds => drop_builds(alloc, target),
        Route::Promote => promote(alloc, target),
        Route::Aql => Ok(AskRow::Aql),
        Route::Spec => Ok(AskRow::Spec),
    }
}
