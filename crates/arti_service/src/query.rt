// What is decided of a query.
ghost use Rattle.std.specs.Prelude.{◌≡◌, ◌&&◌, ℕ, ℤ, List, All, IfOk, map, None};
ghost use Rattle.arti_model.specs.Store.{File, is_file};
ghost use Rattle.arti_model.specs.Query.{Equals, Repo, all_in, file_size, facts_of, holds, page};
ghost use Rattle.arti_model.specs.Decide as model;
ghost use Rattle.arti_aql_reply.specs.Rows.{facts_of_rows};
ghost use Rattle.arti_store.specs.Items.{item_in, items_in};
ghost use Rattle.arti_service.specs.Decisions.{Decides, decided_in};
ghost use Rattle.arti_service.specs.Queries.{IsWhole, key_over};

use crate::decision::{Body, Decision, Reply};
use arti_aql_parse::{ThinFault, thin_parse};
use arti_aql_reply::{ReplyFault, thin_reply};
use arti_rows::{ItemRow, Refusal};
use arti_store::Store;
use std::alloc::{AllocError, Global};

// Whether the row is a file of that repository.
fn is_file_in(row: &ItemRow, repo: &str) -> bool
    ensures { (bytes : List ℕ) → result ≡ (is_file (item_in bytes row.now) && holds (Equals Repo repo.now) (facts_of file_size (item_in bytes row.now))) }
{
    row.file.is_some() && row.key.repo.as_str() == repo
}

// The rows of the files of a repository.
fn files_in<'a>(
    alloc: Global,
    rows: &'a [ItemRow],
    repo: &str,
) -> Result<Vec<&'a ItemRow>, AllocError>
    ensures { (bytes : List ℕ) → All (IsWhole bytes) rows.now → IfOk result (λ v. facts_of_rows v.items ≡ map (facts_of file_size) (page file_size (all_in repo.now) (record { items = items_in bytes rows.now }))) }
{
    let mut out = Vec::new(alloc);
    for row in rows {
        if is_file_in(row, repo) {
            out.push(row)?;
        }
    }
    Ok(out)
}

// The query for the files of a repository.
fn decide_found(alloc: Global, store: &Store, repo: &str) -> Result<Decision, AllocError>
    ensures decides { IfOk result (Decides store.now None (λ bytes. key_over bytes store.now repo.now)) }
    ensures reads { IfOk result OnlyReads }
{
    let rows = files_in(alloc, store.items(), repo)?;
    match thin_reply(alloc, &rows) {
        Ok(text) => Ok(Decision::Tells(Reply {
            status: 200,
            body: Body::Json(text),
        })),
        Err(ReplyFault::ReplyTooLarge) => Ok(Decision::Refused(Refusal::ReplyTooLarge)),
        Err(ReplyFault::Memory) => Err(AllocError),
    }
}

ghost use Rattle.arti_service.specs.Acts.{OnlyReads};

/// What is decided of a query.
pub fn decide_query(alloc: Global, store: &Store, body: &[u8]) -> Result<Decision, AllocError>
    ensures decides { (sent : File) (moment : ℤ) → IfOk result (Decides store.now None (λ bytes. decided_in bytes store.now model.Query body.now sent moment)) }
    ensures reads { IfOk result OnlyReads }
{
    if body.len() as u64 > store.limits().document {
        return Ok(Decision::Refused(Refusal::DocumentTooLarge));
    }
    match thin_parse(alloc, body) {
        Ok(key) => decide_found(alloc, store, key.as_str()),
        Err(ThinFault::NotYet(at)) => Ok(Decision::Refused(Refusal::NotYet(Some(at)))),
        Err(ThinFault::Memory) => Err(AllocError),
    }
}
