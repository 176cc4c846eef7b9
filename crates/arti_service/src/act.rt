// What is left to do for a decision, with all the memory that it takes.
ghost use Rattle.std.specs.Prelude.{◌≡◌, ◌++◌, ◌<◌, ℕ, List, length, Some, None, Option, IfOk};
ghost use Rattle.arti_rows.specs.declared.limits.Limits.{Limits};
ghost use Rattle.arti_blobs.specs.declared.staging.Staged.{Staged};
ghost use Rattle.arti_model.specs.Replies.{head_bytes, IsReplyStatus};
ghost use Rattle.arti_model.specs.Stock.{Stock};
ghost use Rattle.arti_model.specs.Decide.{json};
ghost use Rattle.arti_model.specs.Perform.{told, refusal_reply, perform};
ghost use Rattle.arti_store.specs.Store.{View};
ghost use Rattle.arti_service.specs.Decisions.{reply_in, decision_in, MayDo};
ghost use Rattle.arti_service.specs.Acts.{done_by, MayCarryOut, HasStatus, HasWhole, TellsOnly, OnlyReads};

use crate::decision::{Body, Decision, Reply};
use crate::refusals::{message_of, status_of};
use crate::replies;
use arti_rows::{Change, FileRef, Refusal};
use arti_wire::response_head;
use std::alloc::{AllocError, Global};

/// How many bytes of a content are read at once.
const BLOCK: usize = 65536;

/// The greatest number of bytes of a reply's body.
const MOST_REPLY: usize = 67_108_864;

/// What is left to do. Nothing of it takes memory but a commit.
#[derive(Drop)]
pub enum Act {
    /// A reply is told in two parts, of which the second may be empty.
    Tell {
        head: Vec<u8>,
        body: Vec<u8>,
    },
    /// A head is told, and behind it a kept content, block by block.
    Send {
        head: Vec<u8>,
        file: FileRef,
        buffer: Vec<u8>,
    },
    /// A change is committed, and only then its reply told, behind whose head a kept content may come.
    Commit {
        change: Change,
        head: Vec<u8>,
        file: Option<FileRef>,
        buffer: Vec<u8>,
    },
}

// A buffer for blocks.
fn buffer(alloc: Global) -> Result<Vec<u8>, AllocError>
    ensures { IfOk result (λ v. 0 < length v.items) }
{
    vec![in alloc; 0u8; BLOCK]
}

/// The bytes that tell a refusal.
pub fn refusal_bytes(alloc: Global, alone: bool, why: &Refusal) -> Result<Vec<u8>, AllocError>
    ensures { IfOk result (λ v. v.items ≡ told alone (refusal_reply why.now)) }
{
    let message = message_of(alloc, why)?;
    if alone {
        return replies::refusal_head(alloc, status_of(why), message.as_str());
    }
    replies::refusal(alloc, status_of(why), message.as_str())
}

// A refusal is told.
fn refusal_act(alloc: Global, alone: bool, why: &Refusal) -> Result<Act, AllocError>
    ensures done { IfOk result (λ a. (bytes : List ℕ) (limits : Limits) (s : Stock) → done_by bytes limits s a ≡ unchanged s (told alone (refusal_reply why.now))) }
    ensures tells { IfOk result TellsOnly }
    ensures may { (v : View) (staged : Option Staged) → IfOk result (MayCarryOut v staged) }
{
    Ok(Act::Tell {
        head: refusal_bytes(alloc, alone, why)?,
        body: Vec::new(alloc),
    })
}

ghost use Rattle.arti_model.specs.Stock.{unchanged};

// The head of a reply.
fn head_of(alloc: Global, reply: &Reply) -> Result<Vec<u8>, AllocError>
    requires { IsReplyStatus reply.now.status }
    ensures { IfOk result (λ v. (bytes : List ℕ) → HasWhole bytes reply.now → v.items ≡ head_of (reply_in bytes reply.now)) }
{
    match &reply.body {
        Body::Json(text) => response_head(
            alloc,
            reply.status,
            "application/json",
            None,
            text.len() as u64,
        ),
        Body::Kept(file) => response_head(
            alloc,
            reply.status,
            "application/octet-stream",
            Some(&file.digests),
            file.len,
        ),
    }
}

ghost use Rattle.arti_model.specs.Perform.{head_of, fitting};

// A reply that changes nothing is told.
fn tell_act(alloc: Global, alone: bool, reply: Reply) -> Result<Act, AllocError>
    requires { IsReplyStatus reply.status }
    ensures done { IfOk result (λ a. (bytes : List ℕ) (limits : Limits) (s : Stock) → HasWhole bytes reply → done_by bytes limits s a ≡ unchanged s (told alone (fitting (reply_in bytes reply)))) }
    ensures tells { IfOk result TellsOnly }
    ensures may { (v : View) (staged : Option Staged) → IsKept v.contents.kept reply.body → IfOk result (MayCarryOut v staged) }
{
    if is_too_large(&reply) {
        return refusal_act(alloc, alone, &Refusal::ReplyTooLarge);
    }
    let head = head_of(alloc, &reply)?;
    if alone {
        return Ok(Act::Tell {
            head,
            body: Vec::new(alloc),
        });
    }
    match reply.body {
        Body::Json(text) => Ok(Act::Tell { head, body: text }),
        Body::Kept(file) => Ok(Act::Send {
            head,
            file,
            buffer: buffer(alloc)?,
        }),
    }
}

ghost use Rattle.arti_service.specs.Decisions.{IsKept};

// Whether a text is too long for a reply.
fn is_too_large(reply: &Reply) -> bool
    ensures { (bytes : List ℕ) → result ≡ not (fits (reply_in bytes reply.now).content) }
{
    match &reply.body {
        Body::Json(text) => text.len() > MOST_REPLY,
        Body::Kept(_) => false,
    }
}

ghost use Rattle.std.specs.Prelude.{not};
ghost use Rattle.arti_model.specs.Perform.{fits};

// A change is committed, and its reply told.
fn commit_act(alloc: Global, alone: bool, change: Change, reply: Reply) -> Result<Act, AllocError>
    requires { IsReplyStatus reply.status }
    ensures done { IfOk result (λ a. (bytes : List ℕ) (limits : Limits) (s : Stock) → HasWhole bytes reply → done_by bytes limits s a ≡ accept limits s (file_in bytes) change (told alone (reply_in bytes reply))) }
    ensures may { (v : View) (staged : Option Staged) → MayMake v staged change → IsKept v.contents.kept reply.body → IfOk result (MayCarryOut v staged) }
{
    let mut head = head_of(alloc, &reply)?;
    if alone {
        return Ok(Act::Commit {
            change,
            head,
            file: None,
            buffer: Vec::new(alloc),
        });
    }
    match reply.body {
        Body::Json(text) => {
            head.extend_from_slice(&text)?;
            Ok(Act::Commit {
                change,
                head,
                file: None,
                buffer: Vec::new(alloc),
            })
        }
        Body::Kept(file) => Ok(Act::Commit {
            change,
            head,
            file: Some(file),
            buffer: buffer(alloc)?,
        }),
    }
}

ghost use Rattle.arti_model.specs.Stock.{accept};
ghost use Rattle.arti_store.specs.Items.{file_in};
ghost use Rattle.arti_service.specs.Decisions.{MayMake};

/// What is left to do for a decision, whose reply is told by its head alone or whole.
pub fn prepare(alloc: Global, alone: bool, decision: Decision) -> Result<Act, AllocError>
    requires { HasStatus decision }
    ensures done { IfOk result (λ a. (bytes : List ℕ) (limits : Limits) (s : Stock) → IsWholeIn bytes decision → done_by bytes limits s a ≡ perform limits s alone (decision_in bytes decision)) }
    ensures tells { OnlyReads decision → IfOk result TellsOnly }
    ensures may { (v : View) (staged : Option Staged) → MayDo v staged decision → IfOk result (MayCarryOut v staged) }
{
    match decision {
        Decision::Refused(why) => refusal_act(alloc, alone, &why),
        Decision::Tells(reply) => tell_act(alloc, alone, reply),
        Decision::Makes(change, reply) => commit_act(alloc, alone, change, reply),
    }
}

ghost use Rattle.arti_service.specs.Acts.{IsWholeIn};
