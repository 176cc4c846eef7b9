// Contents are compared by their bytes, in blocks.
ghost use Rattle.std.specs.Prelude.{◌≡◌, ◌↔◌, ◌+◌, ◌^◌, ◌<◌, ◌≤◌, length, take, drop, Contains, None, false, IsTrue, IfOk, IfSome};
ghost use Rattle.arti_rows.specs.Sizes.{contents_file};
ghost use Rattle.arti_rows.specs.declared.rows.FileRef.{FileRef};
ghost use Rattle.arti_ground.specs.State.{State, OnlyReads, HasCause};
ghost use Rattle.arti_blobs.specs.Contents.{IsSame, AllDiffer};
ghost use Rattle.arti_blobs.specs.Chains.{HasEarlier};

use crate::index::Index;
use arti_ground::{Failed, Ground};
use arti_rows::{CONTENTS_FILE, FileRef};

/// How many bytes are compared at once.
pub(crate) const BLOCK: usize = 65_536;

// Whether n bytes at two places of the contents file are the same. The buffers have room for them.
fn same_block<G: Ground>(
    outside: &mut G,
    first: u64,
    second: u64,
    one: &mut [u8],
    other: &mut [u8],
) -> Result<bool, Failed>
    requires long { length other.old ≡ length one.old }
    requires first { G.tells → first + length one.old ≤ length ((G.state outside.old).files contents_file) }
    requires second { G.tells → second + length one.old ≤ length ((G.state outside.old).files contents_file) }
    ensures same { G.tells → IfOk result (λ b. IsTrue b ↔ (take (length one.old) (drop first ((G.state outside.old).files contents_file)) ≡ take (length one.old) (drop second ((G.state outside.old).files contents_file)))) }
    ensures reads { G.tells → OnlyReads (G.state outside.old) (G.state outside.new) }
    ensures cause { HasCause (G.disk_faults outside.old) (G.disk_faults outside.new) result }
    ensures tell_faults { G.tell_faults outside.new ≡ G.tell_faults outside.old }
{
    let n = outside.read(CONTENTS_FILE, first, one)?;
    let m = outside.read(CONTENTS_FILE, second, other)?;
    Ok(n == one.len() && m == n && *one == *other)
}

/// Whether as many bytes at two places of the contents file are the same. They are read into two buffers of one length,
/// block by block.
pub(crate) fn same_bytes<G: Ground>(
    outside: &mut G,
    first: u64,
    second: u64,
    len: u64,
    one: &mut [u8],
    other: &mut [u8],
) -> Result<bool, Failed>
    requires some { 1 ≤ length one.old }
    requires long { length other.old ≡ length one.old }
    requires first_fits { first + len < 2 ^ 63 }
    requires second_fits { second + len < 2 ^ 63 }
    requires first { G.tells → first + len ≤ length ((G.state outside.old).files contents_file) }
    requires second { G.tells → second + len ≤ length ((G.state outside.old).files contents_file) }
    ensures same { G.tells → IfOk result (λ b. IsTrue b ↔ (take len (drop first ((G.state outside.old).files contents_file)) ≡ take len (drop second ((G.state outside.old).files contents_file)))) }
    ensures reads { G.tells → OnlyReads (G.state outside.old) (G.state outside.new) }
    ensures cause { HasCause (G.disk_faults outside.old) (G.disk_faults outside.new) result }
    ensures tell_faults { G.tell_faults outside.new ≡ G.tell_faults outside.old }
{
    let mut done = 0;
    'blocks: while done < len {
        let n = (len - done).min(one.len() as u64) as usize;
        if !same_block(
            outside,
            first + done,
            second + done,
            &mut one[..n],
            &mut other[..n],
        )? {
            return Ok(false);
        }
        done += n as u64;
    }
    Ok(true)
}

/// The kept content that has the bytes, the length and the digests of one in the contents file.
pub(crate) fn find_same<G: Ground>(
    outside: &mut G,
    index: &Index,
    wanted: &FileRef,
    one: &mut [u8],
    other: &mut [u8],
) -> Result<Option<FileRef>, Failed>
    requires some { 1 ≤ length one.old }
    requires long { length other.old ≡ length one.old }
    requires fits { wanted.now.place + wanted.now.len < 2 ^ 63 }
    requires kept { (file : FileRef) → Contains index.now file → file.place + file.len < 2 ^ 63 }
    requires reach { G.tells → wanted.now.place + wanted.now.len ≤ length ((G.state outside.old).files contents_file) }
    requires holds { G.tells → (file : FileRef) → Contains index.now file → file.place + file.len ≤ length ((G.state outside.old).files contents_file) }
    ensures kept { IfOk result (λ r. IfSome r (λ file. Contains index.now file)) }
    ensures length { IfOk result (λ r. IfSome r (λ file. file.len ≡ wanted.now.len)) }
    ensures digests { IfOk result (λ r. IfSome r (λ file. file.digests ≡ wanted.now.digests)) }
    ensures same { G.tells → IfOk result (λ r. IfSome r (λ file. IsSame ((G.state outside.old).files contents_file) wanted.now file)) }
    ensures none { G.tells → IfOk result (λ r. r ≡ None → (file : FileRef) → Contains index.now file → IsSame ((G.state outside.old).files contents_file) wanted.now file → ⊥) }
    ensures reads { G.tells → OnlyReads (G.state outside.old) (G.state outside.new) }
    ensures cause { HasCause (G.disk_faults outside.old) (G.disk_faults outside.new) result }
    ensures tell_faults { G.tell_faults outside.new ≡ G.tell_faults outside.old }
{
    let mut next = index.last(&wanted.digests.sha256);
    'chain: while let Some(at) = next {
        let file = index.file(at);
        if is_same(outside, &file, wanted, one, other)? {
            return Ok(Some(file));
        }
        next = index.before(at);
    }
    Ok(None)
}

/// Whether no two contents have the same bytes and the same digests.
pub(crate) fn all_differ<G: Ground>(
    outside: &mut G,
    index: &Index,
    one: &mut [u8],
    other: &mut [u8],
) -> Result<bool, Failed>
    requires some { 1 ≤ length one.old }
    requires long { length other.old ≡ length one.old }
    requires kept { (file : FileRef) → Contains index.now file → file.place + file.len < 2 ^ 63 }
    requires holds { G.tells → (file : FileRef) → Contains index.now file → file.place + file.len ≤ length ((G.state outside.old).files contents_file) }
    ensures differ { G.tells → IfOk result (λ b. IsTrue b ↔ AllDiffer ((G.state outside.old).files contents_file) index.now) }
    ensures reads { G.tells → OnlyReads (G.state outside.old) (G.state outside.new) }
    ensures cause { HasCause (G.disk_faults outside.old) (G.disk_faults outside.new) result }
    ensures tell_faults { G.tell_faults outside.new ≡ G.tell_faults outside.old }
{
    let len = index.len();
    'kept: for at in 0..len {
        if has_earlier(outside, index, at, one, other)? {
            return Ok(false);
        }
    }
    Ok(true)
}

// Whether a content before one in order of keeping has its bytes and its digests.
fn has_earlier<G: Ground>(
    outside: &mut G,
    index: &Index,
    at: usize,
    one: &mut [u8],
    other: &mut [u8],
) -> Result<bool, Failed>
    requires some { 1 ≤ length one.old }
    requires long { length other.old ≡ length one.old }
    requires at { at < length index.now }
    requires kept { (file : FileRef) → Contains index.now file → file.place + file.len < 2 ^ 63 }
    requires holds { G.tells → (file : FileRef) → Contains index.now file → file.place + file.len ≤ length ((G.state outside.old).files contents_file) }
    ensures found { G.tells → IfOk result (λ b. IsTrue b → HasEarlier ((G.state outside.old).files contents_file) index.now at) }
    ensures none { G.tells → IfOk result (λ b. b ≡ false → HasEarlier ((G.state outside.old).files contents_file) index.now at → ⊥) }
    ensures reads { G.tells → OnlyReads (G.state outside.old) (G.state outside.new) }
    ensures cause { HasCause (G.disk_faults outside.old) (G.disk_faults outside.new) result }
    ensures tell_faults { G.tell_faults outside.new ≡ G.tell_faults outside.old }
{
    let wanted = index.file(at);
    let mut next = index.before(at);
    'chain: while let Some(earlier) = next {
        let file = index.file(earlier);
        if is_same(outside, &file, &wanted, one, other)? {
            return Ok(true);
        }
        next = index.before(earlier);
    }
    Ok(false)
}

// Whether two contents are the same: their lengths, their digests and their bytes.
fn is_same<G: Ground>(
    outside: &mut G,
    file: &FileRef,
    wanted: &FileRef,
    one: &mut [u8],
    other: &mut [u8],
) -> Result<bool, Failed>
    requires some { 1 ≤ length one.old }
    requires long { length other.old ≡ length one.old }
    requires first_fits { file.now.place + file.now.len < 2 ^ 63 }
    requires second_fits { wanted.now.place + wanted.now.len < 2 ^ 63 }
    requires first { G.tells → file.now.place + file.now.len ≤ length ((G.state outside.old).files contents_file) }
    requires second { G.tells → wanted.now.place + wanted.now.len ≤ length ((G.state outside.old).files contents_file) }
    ensures length { IfOk result (λ b. IsTrue b → file.now.len ≡ wanted.now.len) }
    ensures digests { IfOk result (λ b. IsTrue b → file.now.digests ≡ wanted.now.digests) }
    ensures same { G.tells → IfOk result (λ b. IsTrue b ↔ IsSame ((G.state outside.old).files contents_file) wanted.now file.now) }
    ensures reads { G.tells → OnlyReads (G.state outside.old) (G.state outside.new) }
    ensures cause { HasCause (G.disk_faults outside.old) (G.disk_faults outside.new) result }
    ensures tell_faults { G.tell_faults outside.new ≡ G.tell_faults outside.old }
{
    if file.len != wanted.len || file.digests != wanted.digests {
        return Ok(false);
    }
    same_bytes(outside, file.place, wanted.place, wanted.len, one, other)
}
