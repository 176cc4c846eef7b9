// The bytes of replies.
ghost use Rattle.std.specs.Prelude.{◌≡◌, ◌+◌, ◌<◌, ◌++◌, ◌∷◌, string_bytes, IfOk, OnOk};
ghost use Rattle.arti_rows.specs.Key.{whole_of};
ghost use Rattle.arti_model.specs.Replies.{IsReplyStatus};
ghost use Rattle.arti_model.specs.Bodies.{text_member, text_members, deployed_members, deployed_body, digest_members, error_body, json_reply, refused, refused_head};

use arti_json::{write_number, write_text};
use arti_rows::{Digests, ItemKey, Moment};
use arti_wire::response_head;
use std::alloc::{AllocError, Global};

// A member with a text.
fn write_member(alloc: Global, out: &mut Vec<u8>, name: &str, text: &str) -> Result<(), AllocError>
    ensures { OnOk result (out.new.items ≡ out.old.items ++ text_member (name.now, text.now)) }
{
    out.push(b'"')?;
    out.extend_from_slice(name.as_bytes())?;
    out.extend_from_slice(b"\":")?;
    write_text(alloc, out, text)
}

// A further member with a text.
fn write_next(alloc: Global, out: &mut Vec<u8>, name: &str, text: &str) -> Result<(), AllocError>
    ensures { OnOk result (out.new.items ≡ out.old.items ++ 44 ∷ text_member (name.now, text.now)) }
{
    out.push(b',')?;
    write_member(alloc, out, name, text)
}

// The three digests, in hexadecimal digits.
fn write_digests(alloc: Global, out: &mut Vec<u8>, digests: &Digests) -> Result<(), AllocError>
    ensures { OnOk result (out.new.items ≡ out.old.items ++ text_members (digest_members digests.now)) }
{
    let md5 = hex::encode(alloc, digests.md5)?;
    let sha1 = hex::encode(alloc, digests.sha1)?;
    let sha256 = hex::encode(alloc, digests.sha256)?;
    write_member(alloc, out, "md5", md5.as_str())?;
    write_next(alloc, out, "sha1", sha1.as_str())?;
    write_next(alloc, out, "sha256", sha256.as_str())?;
    Ok(())
}

// What a deploy tells of the item.
fn write_deployed(
    alloc: Global,
    out: &mut Vec<u8>,
    key: &ItemKey,
    created: Moment,
    created_by: &str,
    size: u64,
) -> Result<(), AllocError>
    ensures { OnOk result (out.new.items ≡ out.old.items ++ text_members (deployed_members key.now created created_by.now size)) }
{
    let path = rooted(alloc, key)?;
    let moment = arti_time::print(alloc, created)?;
    let moment = moment.as_str();
    let size = size.to_string(alloc)?;
    write_member(alloc, out, "repo", key.repo.as_str())?;
    write_next(alloc, out, "path", path.as_str())?;
    write_next(alloc, out, "created", moment)?;
    write_next(alloc, out, "createdBy", created_by)?;
    write_next(alloc, out, "size", size.as_str())?;
    Ok(())
}

// Path and name joined, behind a slash.
fn rooted(alloc: Global, key: &ItemKey) -> Result<String, AllocError>
    ensures { IfOk result (λ t. string_bytes t ≡ 47 ∷ whole_of key.now) }
{
    let whole = key.whole(alloc)?;
    let mut path = String::from_str(alloc, "/")?;
    path.push_str(whole.as_str())?;
    Ok(path)
}

/// The body that tells of a deployed item.
pub fn deployed(
    alloc: Global,
    key: &ItemKey,
    created: Moment,
    created_by: &str,
    size: u64,
    digests: &Digests,
) -> Result<Vec<u8>, AllocError>
    ensures { IfOk result (λ v. v.items ≡ deployed_body key.now created created_by.now size digests.now) }
{
    let mut out = vec![in alloc; b'{']?;
    write_deployed(alloc, &mut out, key, created, created_by, size)?;
    out.extend_from_slice(b",\"checksums\":{")?;
    write_digests(alloc, &mut out, digests)?;
    out.extend_from_slice(b"}}")?;
    Ok(out)
}

// The body that answers a refused request.
fn error(alloc: Global, status: u16, message: &str) -> Result<Vec<u8>, AllocError>
    ensures { IfOk result (λ v. v.items ≡ error_body status message.now) }
{
    let mut out = Vec::from_slice(alloc, b"{\"errors\":[{\"status\":")?;
    write_number(alloc, &mut out, u64::from(status))?;
    out.extend_from_slice(b",\"message\":")?;
    write_text(alloc, &mut out, message)?;
    out.extend_from_slice(b"}]}")?;
    Ok(out)
}

/// A whole reply with a JSON body.
pub fn with_json(alloc: Global, status: u16, body: &[u8]) -> Result<Vec<u8>, AllocError>
    requires { IsReplyStatus status }
    ensures { IfOk result (λ v. v.items ≡ json_reply status body.now) }
{
    let mut out = response_head(alloc, status, "application/json", None, body.len() as u64)?;
    out.extend_from_slice(body)?;
    Ok(out)
}

/// A refusal's whole reply.
pub fn refusal(alloc: Global, status: u16, message: &str) -> Result<Vec<u8>, AllocError>
    requires { IsReplyStatus status }
    ensures { IfOk result (λ v. v.items ≡ refused status message.now) }
{
    let body = error(alloc, status, message)?;
    with_json(alloc, status, &body)
}

/// The head of a refusal's reply.
pub fn refusal_head(alloc: Global, status: u16, message: &str) -> Result<Vec<u8>, AllocError>
    requires { IsReplyStatus status }
    ensures { IfOk result (λ v. v.items ≡ refused_head status message.now) }
{
    let body = error(alloc, status, message)?;
    response_head(alloc, status, "application/json", None, body.len() as u64)
}
