// Digests, content references and items.
ghost use Rattle.std.specs.Prelude.{◌≡◌, ◌++◌, OnOk};
ghost use Rattle.arti_codec.specs.Format.{bytes_of_some};
ghost use Rattle.arti_codec.specs.ChangeBytes.{digests, file_ref, given, some_digests, flagged, stat, stamps, stamps_of, held, held_of, item_row};
ghost use Rattle.arti_codec.specs.Reading.{Gives, GivesSeen, run_at, optional_at};
ghost use Rattle.arti_codec.specs.ReadingRows.{digests_at, file_ref_at, given_at, some_digests_at, flagged_at, stat_at, stamps_at, held_at, item_row_of, item_row_at};
ghost use Rattle.arti_codec.specs.Seen.{stamps_seen, held_seen};

use crate::fault::DecodeFault;
use crate::field::{Field, put_list16, put_u64};
use crate::props::take_properties;
use crate::reader::Reader;
use arti_rows::{
    Digests, FileRef, Given, ItemKey, ItemRow, MOST_CONTENT, Moment, Property, Seq, SomeDigests,
    Stat, Text,
};
use std::alloc::{AllocError, Global};

// Reads a digest of that length.
fn take_digest<const N: usize>(reader: &mut Reader<'_>) -> Result<[u8; N], DecodeFault>
    ensures { Gives result (run_at N reader.old) reader.new }
{
    let bytes = reader.run(N)?;
    let mut digest = [0; N];
    digest.copy_from_slice(bytes);
    Ok(digest)
}

impl Field for Digests {
    ghost format = { digests };

    ghost read = { digests_at };

    #[tactic(auto, unfolding(crate::specs::ChangeBytes::digests))]
    fn put(&self, out: &mut Vec<u8>) -> Result<(), AllocError> {
        out.extend_from_slice(&self.md5)?;
        out.extend_from_slice(&self.sha1)?;
        out.extend_from_slice(&self.sha256)?;
        Ok(())
    }

    #[tactic(auto, unfolding(crate::specs::ReadingRows::digests_at))]
    fn take(_alloc: Global, reader: &mut Reader<'_>) -> Result<Digests, DecodeFault> {
        let md5 = take_digest::<16>(reader)?;
        let sha1 = take_digest::<20>(reader)?;
        let sha256 = take_digest::<32>(reader)?;
        Ok(Digests { md5, sha1, sha256 })
    }
}

impl Field for FileRef {
    ghost format = { file_ref };

    ghost read = { file_ref_at };

    #[tactic(auto, unfolding(crate::specs::ChangeBytes::file_ref))]
    fn put(&self, out: &mut Vec<u8>) -> Result<(), AllocError> {
        put_u64(out, self.place)?;
        put_u64(out, self.len)?;
        self.digests.put(out)?;
        Ok(())
    }

    #[tactic(auto, unfolding(crate::specs::ReadingRows::file_ref_at))]
    fn take(alloc: Global, reader: &mut Reader<'_>) -> Result<FileRef, DecodeFault> {
        let place = reader.u64()?;
        let len = reader.u64()?;
        if len > MOST_CONTENT {
            return Err(DecodeFault::NotAChange);
        }
        let digests = Digests::take(alloc, reader)?;
        Ok(FileRef {
            place,
            len,
            digests,
        })
    }
}

impl Field for Given {
    ghost format = { given };

    ghost read = { given_at };

    #[tactic(auto, unfolding(crate::specs::ChangeBytes::given))]
    fn put(&self, out: &mut Vec<u8>) -> Result<(), AllocError> {
        out.push(u8::from(self.md5) + 2 * u8::from(self.sha1) + 4 * u8::from(self.sha256))?;
        Ok(())
    }

    #[tactic(auto, unfolding(crate::specs::ReadingRows::given_at))]
    fn take(_alloc: Global, reader: &mut Reader<'_>) -> Result<Given, DecodeFault> {
        let bits = reader.u8()?;
        if bits >= 8 {
            return Err(DecodeFault::NotAChange);
        }
        Ok(Given {
            md5: bits % 2 == 1,
            sha1: bits / 2 % 2 == 1,
            sha256: bits / 4 == 1,
        })
    }
}

// Adds a digest where there is one.
fn put_digest<const N: usize>(out: &mut Vec<u8>, digest: &Option<[u8; N]>) -> Result<(), AllocError>
    ensures { OnOk result (out.new.items ≡ out.old.items ++ bytes_of_some (λ bytes. bytes) digest.now) }
{
    if let Some(bytes) = digest {
        out.extend_from_slice(bytes)?;
    }
    Ok(())
}

// Reads a digest where one is said to be there.
fn take_if<const N: usize>(
    there: bool,
    reader: &mut Reader<'_>,
) -> Result<Option<[u8; N]>, DecodeFault>
    ensures { Gives result (optional_at there (run_at N) reader.old) reader.new }
{
    if !there {
        return Ok(None);
    }
    Ok(Some(take_digest::<N>(reader)?))
}

impl Field for SomeDigests {
    ghost format = { some_digests };

    ghost read = { some_digests_at };

    #[tactic(auto, unfolding(crate::specs::ChangeBytes::some_digests, crate::specs::ChangeBytes::given))]
    fn put(&self, out: &mut Vec<u8>) -> Result<(), AllocError> {
        let which = Given {
            md5: self.md5.is_some(),
            sha1: self.sha1.is_some(),
            sha256: self.sha256.is_some(),
        };
        which.put(out)?;
        put_digest(out, &self.md5)?;
        put_digest(out, &self.sha1)?;
        put_digest(out, &self.sha256)?;
        Ok(())
    }

    #[tactic(auto, unfolding(crate::specs::ReadingRows::some_digests_at))]
    fn take(alloc: Global, reader: &mut Reader<'_>) -> Result<SomeDigests, DecodeFault> {
        let which = Given::take(alloc, reader)?;
        let md5 = take_if::<16>(which.md5, reader)?;
        let sha1 = take_if::<20>(which.sha1, reader)?;
        let sha256 = take_if::<32>(which.sha256, reader)?;
        Ok(SomeDigests { md5, sha1, sha256 })
    }
}

// Adds a flag and, where there is one, the value.
fn put_flagged<T: Field>(out: &mut Vec<u8>, value: &Option<T>) -> Result<(), AllocError>
    requires { (flagged T.format).keeps value.now }
    ensures { OnOk result (out.new.items ≡ out.old.items ++ (flagged T.format).spell value.now) }
{
    match value {
        None => out.push(0)?,
        Some(x) => {
            out.push(1)?;
            x.put(out)?;
        }
    }
    Ok(())
}

// Reads a flag and, behind a 1, a value.
fn take_flagged<T: Field>(alloc: Global, reader: &mut Reader<'_>) -> Result<Option<T>, DecodeFault>
    ensures { Gives result (flagged_at T.read reader.old) reader.new }
{
    if !reader.flag()? {
        return Ok(None);
    }
    Ok(Some(T::take(alloc, reader)?))
}

impl Field for Stat {
    ghost format = { stat };

    ghost read = { stat_at };

    #[tactic(auto, unfolding(crate::specs::ChangeBytes::stat))]
    fn put(&self, out: &mut Vec<u8>) -> Result<(), AllocError> {
        put_u64(out, self.downloads)?;
        self.downloaded.put(out)?;
        self.downloaded_by.put(out)?;
        Ok(())
    }

    #[tactic(auto, unfolding(crate::specs::ReadingRows::stat_at))]
    fn take(alloc: Global, reader: &mut Reader<'_>) -> Result<Stat, DecodeFault> {
        let downloads = reader.u64()?;
        let downloaded = Moment::take(alloc, reader)?;
        let downloaded_by = Text::take(alloc, reader)?;
        Ok(Stat {
            downloads,
            downloaded,
            downloaded_by,
        })
    }
}

// When an item was made and changed, and by whom.
#[derive(Drop)]
struct Stamps {
    created: Moment,
    created_by: Text,
    modified: Moment,
    modified_by: Text,
    updated: Moment,
}

// What an item holds.
#[derive(Drop)]
struct Held {
    given: Given,
    file: Option<FileRef>,
    props: Seq<Property>,
    stat: Option<Stat>,
}

// Adds when an item was made and changed, and by whom.
#[tactic(auto, unfolding(crate::specs::ChangeBytes::stamps))]
fn put_stamps(out: &mut Vec<u8>, row: &ItemRow) -> Result<(), AllocError>
    requires { stamps.keeps (stamps_of row.now) }
    ensures { OnOk result (out.new.items ≡ out.old.items ++ stamps.spell (stamps_of row.now)) }
{
    row.created.put(out)?;
    row.created_by.put(out)?;
    row.modified.put(out)?;
    row.modified_by.put(out)?;
    row.updated.put(out)
}

// Adds what an item holds.
#[tactic(auto, unfolding(crate::specs::ChangeBytes::held, crate::specs::ChangeBytes::properties))]
fn put_held(out: &mut Vec<u8>, row: &ItemRow) -> Result<(), AllocError>
    requires { held.keeps (held_of row.now) }
    ensures { OnOk result (out.new.items ≡ out.old.items ++ held.spell (held_of row.now)) }
{
    row.given.put(out)?;
    put_flagged(out, &row.file)?;
    put_list16(out, row.props.as_slice())?;
    put_flagged(out, &row.stat)
}

// Reads when an item was made and changed, and by whom.
#[tactic(auto, unfolding(crate::specs::ReadingRows::stamps_at))]
fn take_stamps(alloc: Global, reader: &mut Reader<'_>) -> Result<Stamps, DecodeFault>
    ensures { GivesSeen stamps_seen result (stamps_at reader.old) reader.new }
{
    let created = Moment::take(alloc, reader)?;
    let created_by = Text::take(alloc, reader)?;
    let modified = Moment::take(alloc, reader)?;
    let modified_by = Text::take(alloc, reader)?;
    let updated = Moment::take(alloc, reader)?;
    Ok(Stamps {
        created,
        created_by,
        modified,
        modified_by,
        updated,
    })
}

// Reads what an item holds.
#[tactic(auto, unfolding(crate::specs::ReadingRows::held_at))]
fn take_held(alloc: Global, reader: &mut Reader<'_>) -> Result<Held, DecodeFault>
    ensures { GivesSeen held_seen result (held_at reader.old) reader.new }
{
    let given = Given::take(alloc, reader)?;
    let file = take_flagged::<FileRef>(alloc, reader)?;
    let props = take_properties(alloc, reader, 1_024)?;
    let stat = take_flagged::<Stat>(alloc, reader)?;
    Ok(Held {
        given,
        file,
        props,
        stat,
    })
}

// The row of its parts.
fn row_of_parts(key: ItemKey, stamps: Stamps, held: Held) -> ItemRow
    ensures { result ≡ item_row_of (key, (stamps_seen stamps, held_seen held)) }
{
    ItemRow {
        key,
        created: stamps.created,
        created_by: stamps.created_by,
        modified: stamps.modified,
        modified_by: stamps.modified_by,
        updated: stamps.updated,
        given: held.given,
        file: held.file,
        props: held.props,
        stat: held.stat,
    }
}

impl Field for ItemRow {
    ghost format = { item_row };

    ghost read = { item_row_at };

    #[tactic(auto, unfolding(crate::specs::ChangeBytes::item_row))]
    fn put(&self, out: &mut Vec<u8>) -> Result<(), AllocError> {
        self.key.put(out)?;
        put_stamps(out, self)?;
        put_held(out, self)
    }

    #[tactic(auto, unfolding(crate::specs::ReadingRows::item_row_at))]
    fn take(alloc: Global, reader: &mut Reader<'_>) -> Result<ItemRow, DecodeFault> {
        let key = ItemKey::take(alloc, reader)?;
        let stamps = take_stamps(alloc, reader)?;
        let held = take_held(alloc, reader)?;
        Ok(row_of_parts(key, stamps, held))
    }
}
