// What is decided of a fetch.
ghost use Rattle.std.specs.Prelude.{◌≡◌, ℕ, List, [], ◌∷◌, IfOk};
ghost use Rattle.arti_codec.specs.ChangeBytes.{HasBytes};
ghost use Rattle.arti_model.specs.Store.{File, local_key};
ghost use Rattle.arti_model.specs.Decide.{fetch_change};
ghost use Rattle.arti_model.specs.Decide as model;
ghost use Rattle.arti_service.specs.Decisions.{Decides, decided_in};
ghost use Rattle.std.specs.Prelude.{None};

use crate::bytes::fetch_has_bytes;
use crate::decision::{Body, Decision, Reply};
use crate::looking::file_at;
use arti_rows::{Change, Edit, ItemKey, Moment, Refusal, Seq, Text};
use arti_store::Store;
use std::alloc::{AllocError, Global};

// The change that counts a fetch.
fn fetch_change(alloc: Global, moment: Moment, key: ItemKey) -> Result<Change, AllocError>
    ensures change { IfOk result (λ c. c ≡ fetch_change moment key) }
    ensures bytes { IfOk result HasBytes }
{
    let user = Text::from_str(alloc, "anonymous")?;
    fetch_has_bytes(moment, &user, &key);
    let mut edits = Seq::new(alloc);
    edits.push(Edit::Downloaded { key })?;
    Ok(Change {
        moment,
        user,
        edits,
    })
}

/// What is decided of a fetch.
pub fn decide_fetch(
    alloc: Global,
    store: &Store,
    key: ItemKey,
    moment: Moment,
) -> Result<Decision, AllocError>
    requires { key.repo ≡ local_key }
    ensures { (body : List ℕ) (sent : File) → IfOk result (Decides store.now None (λ bytes. decided_in bytes store.now (model.Fetch key) body sent moment)) }
{
    let Some(file) = file_at(store, &key) else {
        return Ok(Decision::Refused(Refusal::NotFound(key)));
    };
    let change = fetch_change(alloc, moment, key)?;
    let reply = Reply {
        status: 200,
        body: Body::Kept(file),
    };
    Ok(Decision::Makes(change, reply))
}
