// The reply to a query.
ghost use Rattle.std.specs.Prelude.{◌≡◌, ◌++◌, ◌∷◌, [], ◌+◌, ◌^◌, ◌<◌, ◌≤◌, length, map, OnOk, IfOk, IsErrOf, codes, decimal, flat_map, None};
ghost use Rattle.arti_model.specs.Query.{with_commas, row_text, limit_text, range_text, reply_text};
ghost use Rattle.arti_rows.specs.Sizes.{most_reply};
ghost use Rattle.arti_aql_reply.specs.Rows.{facts_of_row, facts_of_rows};

use crate::ReplyFault;
use crate::row::write_row;
use arti_json::write_number;
use arti_rows::{ItemRow, MOST_REPLY};
use std::alloc::{AllocError, Global};

// Appends a row behind others.
fn write_next_row(alloc: Global, out: &mut Vec<u8>, row: &ItemRow) -> Result<(), AllocError>
    ensures { OnOk result (out.new.items ≡ out.old.items ++ 44 ∷ row_text (facts_of_row row.now)) }
{
    out.push(b',')?;
    write_row(alloc, out, row)
}

// The same, as long as the text isn't too large.
fn write_next(alloc: Global, out: &mut Vec<u8>, row: &ItemRow) -> Result<(), ReplyFault>
    ensures ok { OnOk result (out.new.items ≡ out.old.items ++ 44 ∷ row_text (facts_of_row row.now)) }
    ensures too_large { IsErrOf result ReplyFault.ReplyTooLarge → most_reply < length (out.old.items ++ 44 ∷ row_text (facts_of_row row.now)) }
{
    write_next_row(alloc, out, row)?;
    if MOST_REPLY < out.len() {
        return Err(ReplyFault::ReplyTooLarge);
    }
    Ok(())
}

// Appends rows behind others.
fn write_others(alloc: Global, out: &mut Vec<u8>, rows: &[&ItemRow]) -> Result<(), ReplyFault>
    ensures ok { OnOk result (out.new.items ≡ out.old.items ++ flat_map (λ t. 44 ∷ t) (map row_text (facts_of_rows rows.now))) }
    ensures too_large { IsErrOf result ReplyFault.ReplyTooLarge → most_reply < length (out.old.items ++ flat_map (λ t. 44 ∷ t) (map row_text (facts_of_rows rows.now))) }
{
    for row in rows {
        match write_next(alloc, out, row) {
            Ok(()) => {}
            Err(fault) => return Err(fault),
        }
    }
    Ok(())
}

// Appends the rows with commas between them.
fn write_rows(alloc: Global, out: &mut Vec<u8>, rows: &[&ItemRow]) -> Result<(), ReplyFault>
    ensures ok { OnOk result (out.new.items ≡ out.old.items ++ with_commas (map row_text (facts_of_rows rows.now))) }
    ensures too_large { IsErrOf result ReplyFault.ReplyTooLarge → most_reply < length (out.old.items ++ with_commas (map row_text (facts_of_rows rows.now))) }
{
    match rows.split_first() {
        None => Ok(()),
        Some((first, others)) => {
            write_row(alloc, out, first)?;
            write_others(alloc, out, others)
        }
    }
}

// Appends the limit, where there is one.
fn write_limit(alloc: Global, out: &mut Vec<u8>, limit: Option<u64>) -> Result<(), AllocError>
    ensures { OnOk result (out.new.items ≡ out.old.items ++ limit_text limit) }
{
    match limit {
        None => Ok(()),
        Some(n) => {
            out.extend_from_slice(b",\"limit\":")?;
            write_number(alloc, out, n)
        }
    }
}

// Appends bytes as they are.
fn write_plain(out: &mut Vec<u8>, bytes: &[u8]) -> Result<(), AllocError>
    ensures { OnOk result (out.new.items ≡ out.old.items ++ bytes.now) }
{
    out.extend_from_slice(bytes)
}

// Appends what tells where the rows stand among those that are selected.
fn write_range(
    alloc: Global,
    out: &mut Vec<u8>,
    offset: u64,
    limit: Option<u64>,
    total: u64,
) -> Result<(), AllocError>
    requires { offset + total < 2 ^ 64 }
    ensures { OnOk result (out.new.items ≡ out.old.items ++ range_text offset limit total) }
{
    write_plain(out, b"{\"start_pos\":")?;
    write_number(alloc, out, offset)?;
    write_plain(out, b",\"end_pos\":")?;
    write_number(alloc, out, offset + total)?;
    write_plain(out, b",\"total\":")?;
    write_number(alloc, out, total)?;
    write_limit(alloc, out, limit)?;
    write_plain(out, b"}")?;
    Ok(())
}

// Appends what stands behind the rows.
fn write_end(alloc: Global, out: &mut Vec<u8>, total: u64) -> Result<(), AllocError>
    ensures { OnOk result (out.new.items ≡ out.old.items ++ (codes "],\"range\":" ++ (range_text 0 None total ++ codes "}"))) }
{
    out.extend_from_slice(b"],\"range\":")?;
    write_range(alloc, out, 0, None, total)?;
    out.extend_from_slice(b"}")
}

/// The text that answers a query for these rows, without include, offset and limit.
pub fn thin_reply(alloc: Global, rows: &[&ItemRow]) -> Result<Vec<u8>, ReplyFault>
    ensures text { IfOk result (λ v. v.items ≡ reply_text 0 None (facts_of_rows rows.now)) }
    ensures fits { IfOk result (λ v. length v.items ≤ most_reply) }
    ensures too_large { IsErrOf result ReplyFault.ReplyTooLarge → most_reply < length (reply_text 0 None (facts_of_rows rows.now)) }
{
    let mut out = Vec::from_slice(alloc, b"{\"results\":[")?;
    if let Err(fault) = write_rows(alloc, &mut out, rows) {
        return Err(fault);
    }
    write_end(alloc, &mut out, rows.len() as u64)?;
    if out.len() > MOST_REPLY {
        return Err(ReplyFault::ReplyTooLarge);
    }
    Ok(out)
}
