// The change that a request for items makes.
ghost use Rattle.std.specs.Prelude.{◌≤◌, length};
ghost use Rattle.arti_codec.specs.ChangeBytes.{HasBytes};
ghost use Rattle.arti_catalog.specs.Held.{items_in};
ghost use Rattle.arti_moves.specs.Moves.{planned, Plans, OfChange, IsAccepted, KeepsAsk};

use crate::MoveAsk;
use crate::deploys::plan_deploy;
use crate::plans::{plan_delete, plan_drop, plan_folder, plan_set};
use arti_catalog::Catalog;
use arti_rows::{Change, Moment, Refusal};
use std::alloc::Global;

/// The change that an ask makes, or why it is refused. There is none where a folder is asked for that is there.
pub fn plan_move(
    alloc: Global,
    catalog: &Catalog,
    ask: &MoveAsk,
    moment: Moment,
    user: &str,
) -> Result<Option<Change>, Refusal>
    ensures plan { Plans result (planned catalog.now.limits (items_in catalog.now) moment user.now ask.now) }
    ensures accepted { OfChange (IsAccepted catalog.now.limits (items_in catalog.now)) result }
    ensures bytes { KeepsAsk (items_in catalog.now) ask.now → length user.now ≤ 4096 → OfChange HasBytes result }
{
    plan_of(alloc, catalog, ask, moment, user)
}

// The same, by the kind of ask.
fn plan_of(
    alloc: Global,
    catalog: &Catalog,
    ask: &MoveAsk,
    moment: Moment,
    user: &str,
) -> Result<Option<Change>, Refusal>
    ensures plan { Plans result (planned catalog.now.limits (items_in catalog.now) moment user.now ask.now) }
    ensures bytes { KeepsAsk (items_in catalog.now) ask.now → length user.now ≤ 4096 → OfChange HasBytes result }
{
    match ask {
        MoveAsk::Deploy {
            key,
            props,
            digests,
            file,
        } => plan_deploy(alloc, catalog, key, props, digests, file, moment, user),
        MoveAsk::Folder { key } => plan_folder(alloc, catalog, key, moment, user),
        MoveAsk::Delete { key } => plan_delete(alloc, catalog, key, moment, user),
        MoveAsk::SetProps { key, props, deep } => {
            plan_set(alloc, catalog, key, *deep, props, moment, user)
        }
        MoveAsk::DropProps { key, keys, deep } => {
            plan_drop(alloc, catalog, key, *deep, keys, moment, user)
        }
    }
}
