// Builds and their promotions.
ghost use Rattle.std.specs.Prelude.{◌≡◌, ◌++◌, OnOk, length};
ghost use Rattle.std.specs.Int.{w32};
ghost use Rattle.arti_codec.specs.Format.{behind, number, run};
ghost use Rattle.arti_codec.specs.ChangeBytes.{promotion, artifact, dependency, module_row, build_parts, build_info, added, added_of, build_row};
ghost use Rattle.arti_codec.specs.Reading.{Gives, GivesSeen, told_by, number_at, run_at};
ghost use Rattle.arti_codec.specs.Seen.{seen, body_seen, added_seen};
ghost use Rattle.arti_codec.specs.ReadingRows.{promotion_at, artifact_at, dependency_at, module_row_at, body_at, build_parts_at, build_info_at, added_at, build_row_of, build_row_at};

use crate::fault::DecodeFault;
use crate::field::{
    Field, put_len32, put_list16, put_list32, take_list32, take_some16, take_some32,
};
use crate::props::take_properties;
use crate::reader::Reader;
use crate::texts::{put_build_name, take_build_name};
use arti_rows::{
    ArtifactRow, BuildInfo, BuildRow, DependencyRow, ModuleRow, Moment, PromotionRow, Property,
    Seq, SomeDigests, Text,
};
use std::alloc::{AllocError, Global};

impl Field for PromotionRow {
    ghost format = { promotion };

    ghost read = { promotion_at };

    #[tactic(auto, unfolding(crate::specs::ChangeBytes::promotion))]
    fn put(&self, out: &mut Vec<u8>) -> Result<(), AllocError> {
        self.created.put(out)?;
        self.created_by.put(out)?;
        self.status.put(out)?;
        self.repo.put(out)?;
        self.comment.put(out)?;
        self.user.put(out)?;
        Ok(())
    }

    #[tactic(auto, unfolding(crate::specs::ReadingRows::promotion_at))]
    fn take(alloc: Global, reader: &mut Reader<'_>) -> Result<PromotionRow, DecodeFault> {
        let created = Moment::take(alloc, reader)?;
        let created_by = Text::take(alloc, reader)?;
        let status = Text::take(alloc, reader)?;
        let repo = Text::take(alloc, reader)?;
        let comment = Text::take(alloc, reader)?;
        let user = Text::take(alloc, reader)?;
        Ok(PromotionRow {
            created,
            created_by,
            status,
            repo,
            comment,
            user,
        })
    }
}

impl Field for ArtifactRow {
    ghost format = { artifact };

    ghost read = { artifact_at };

    #[tactic(auto, unfolding(crate::specs::ChangeBytes::artifact))]
    fn put(&self, out: &mut Vec<u8>) -> Result<(), AllocError> {
        self.name.put(out)?;
        self.kind.put(out)?;
        self.digests.put(out)?;
        Ok(())
    }

    #[tactic(auto, unfolding(crate::specs::ReadingRows::artifact_at))]
    fn take(alloc: Global, reader: &mut Reader<'_>) -> Result<ArtifactRow, DecodeFault> {
        let name = Text::take(alloc, reader)?;
        let kind = Text::take(alloc, reader)?;
        let digests = SomeDigests::take(alloc, reader)?;
        Ok(ArtifactRow {
            name,
            kind,
            digests,
        })
    }
}

impl Field for DependencyRow {
    ghost format = { dependency };

    ghost read = { dependency_at };

    #[tactic(auto, unfolding(crate::specs::ChangeBytes::dependency))]
    fn put(&self, out: &mut Vec<u8>) -> Result<(), AllocError> {
        self.id.put(out)?;
        self.kind.put(out)?;
        put_list16(out, self.scopes.as_slice())?;
        self.digests.put(out)?;
        Ok(())
    }

    #[tactic(auto, unfolding(crate::specs::ReadingRows::dependency_at))]
    fn take(alloc: Global, reader: &mut Reader<'_>) -> Result<DependencyRow, DecodeFault> {
        let id = Text::take(alloc, reader)?;
        let kind = Text::take(alloc, reader)?;
        let scopes = take_some16::<Text>(alloc, reader, 1_024)?;
        let digests = SomeDigests::take(alloc, reader)?;
        Ok(DependencyRow {
            id,
            kind,
            scopes,
            digests,
        })
    }
}

impl Field for ModuleRow {
    ghost format = { module_row };

    ghost read = { module_row_at };

    #[tactic(auto, unfolding(crate::specs::ChangeBytes::module_row))]
    fn put(&self, out: &mut Vec<u8>) -> Result<(), AllocError> {
        self.id.put(out)?;
        put_list32(out, self.artifacts.as_slice())?;
        put_list32(out, self.dependencies.as_slice())?;
        Ok(())
    }

    #[tactic(auto, unfolding(crate::specs::ReadingRows::module_row_at))]
    fn take(alloc: Global, reader: &mut Reader<'_>) -> Result<ModuleRow, DecodeFault> {
        let id = Text::take(alloc, reader)?;
        let artifacts = take_list32::<ArtifactRow>(alloc, reader)?;
        let dependencies = take_list32::<DependencyRow>(alloc, reader)?;
        Ok(ModuleRow {
            id,
            artifacts,
            dependencies,
        })
    }
}

// A build as it was put, wherever its parts lie.
#[derive(Drop)]
struct Parts<'a> {
    name: &'a Text,
    number: &'a Text,
    started: Moment,
    url: &'a Text,
    props: &'a [Property],
    modules: &'a [ModuleRow],
    document: &'a [u8],
}

// Adds bytes behind their number.
fn put_document(out: &mut Vec<u8>, document: &[u8]) -> Result<(), AllocError>
    requires { (number w32).keeps (length document.now) }
    ensures { OnOk result (out.new.items ≡ out.old.items ++ (behind (number w32) length run).spell document.now) }
{
    put_len32(out, document.len())?;
    out.extend_from_slice(document)?;
    Ok(())
}

// Reads bytes behind their number.
fn take_document(alloc: Global, reader: &mut Reader<'_>) -> Result<Seq<u8>, DecodeFault>
    ensures { Gives result (told_by (number_at w32) run_at reader.old) reader.new }
{
    let len = reader.u32()?;
    let bytes = reader.run(len as usize)?;
    Ok(Seq::from_vec(Vec::from_slice(alloc, bytes)?))
}

// Adds the bytes of a build as it was put.
#[tactic(auto, unfolding(crate::specs::ChangeBytes::build_parts, crate::specs::ChangeBytes::properties))]
fn put_parts(out: &mut Vec<u8>, parts: &Parts<'_>) -> Result<(), AllocError>
    requires { build_parts.keeps (seen parts.now) }
    ensures { OnOk result (out.new.items ≡ out.old.items ++ build_parts.spell (seen parts.now)) }
{
    put_build_name(out, parts.name)?;
    put_build_name(out, parts.number)?;
    parts.started.put(out)?;
    parts.url.put(out)?;
    put_list16(out, parts.props)?;
    put_list32(out, parts.modules)?;
    put_document(out, parts.document)
}

// What stands behind a build's texts.
#[derive(Drop)]
struct Body {
    props: Seq<Property>,
    modules: Seq<ModuleRow>,
    document: Seq<u8>,
}

// Reads what stands behind a build's texts.
#[tactic(auto, unfolding(crate::specs::ReadingRows::body_at))]
fn take_body(alloc: Global, reader: &mut Reader<'_>) -> Result<Body, DecodeFault>
    ensures { GivesSeen body_seen result (body_at reader.old) reader.new }
{
    let props = take_properties(alloc, reader, 8_192)?;
    let modules = take_list32::<ModuleRow>(alloc, reader)?;
    let document = take_document(alloc, reader)?;
    Ok(Body {
        props,
        modules,
        document,
    })
}

// Reads a build as it was put, of any length.
#[tactic(auto, unfolding(crate::specs::ReadingRows::build_parts_at))]
fn take_parts(alloc: Global, reader: &mut Reader<'_>) -> Result<BuildInfo, DecodeFault>
    ensures { Gives result (build_parts_at reader.old) reader.new }
{
    let name = take_build_name(alloc, reader)?;
    let number = take_build_name(alloc, reader)?;
    let started = Moment::take(alloc, reader)?;
    let url = Text::take(alloc, reader)?;
    let body = take_body(alloc, reader)?;
    Ok(BuildInfo {
        name,
        number,
        started,
        url,
        props: body.props,
        modules: body.modules,
        document: body.document,
    })
}

impl Field for BuildInfo {
    ghost format = { build_info };

    ghost read = { build_info_at };

    #[tactic(auto, unfolding(crate::specs::ChangeBytes::build_info))]
    fn put(&self, out: &mut Vec<u8>) -> Result<(), AllocError> {
        put_parts(
            out,
            &Parts {
                name: &self.name,
                number: &self.number,
                started: self.started,
                url: &self.url,
                props: self.props.as_slice(),
                modules: self.modules.as_slice(),
                document: self.document.as_slice(),
            },
        )
    }

    #[tactic(auto, unfolding(crate::specs::ReadingRows::build_info_at))]
    fn take(alloc: Global, reader: &mut Reader<'_>) -> Result<BuildInfo, DecodeFault> {
        let before = reader.len();
        let info = take_parts(alloc, reader)?;
        if before.saturating_sub(reader.len()) > 33_554_432 {
            return Err(DecodeFault::NotAChange);
        }
        Ok(info)
    }
}

// What the repository added to a build.
#[derive(Drop)]
struct Added {
    created: Moment,
    created_by: Text,
    modified: Moment,
    modified_by: Text,
    promotions: Seq<PromotionRow>,
}

// Adds what the repository added to a build.
#[tactic(auto, unfolding(crate::specs::ChangeBytes::added))]
fn put_added(out: &mut Vec<u8>, row: &BuildRow) -> Result<(), AllocError>
    requires { added.keeps (added_of row.now) }
    ensures { OnOk result (out.new.items ≡ out.old.items ++ added.spell (added_of row.now)) }
{
    row.created.put(out)?;
    row.created_by.put(out)?;
    row.modified.put(out)?;
    row.modified_by.put(out)?;
    put_list32(out, row.promotions.as_slice())
}

// Reads what the repository added to a build.
#[tactic(auto, unfolding(crate::specs::ReadingRows::added_at))]
fn take_added(alloc: Global, reader: &mut Reader<'_>) -> Result<Added, DecodeFault>
    ensures { GivesSeen added_seen result (added_at reader.old) reader.new }
{
    let created = Moment::take(alloc, reader)?;
    let created_by = Text::take(alloc, reader)?;
    let modified = Moment::take(alloc, reader)?;
    let modified_by = Text::take(alloc, reader)?;
    let promotions = take_some32::<PromotionRow>(alloc, reader, 1_024)?;
    Ok(Added {
        created,
        created_by,
        modified,
        modified_by,
        promotions,
    })
}

// The row of a build that was put, with what the repository added.
fn row_of_parts(info: BuildInfo, added: Added) -> BuildRow
    ensures { result ≡ build_row_of (info, added_seen added) }
{
    BuildRow {
        name: info.name,
        number: info.number,
        started: info.started,
        url: info.url,
        created: added.created,
        created_by: added.created_by,
        modified: added.modified,
        modified_by: added.modified_by,
        props: info.props,
        modules: info.modules,
        promotions: added.promotions,
        document: info.document,
    }
}

impl Field for BuildRow {
    ghost format = { build_row };

    ghost read = { build_row_at };

    #[tactic(auto, unfolding(crate::specs::ChangeBytes::build_row, crate::specs::ChangeBytes::build_info))]
    fn put(&self, out: &mut Vec<u8>) -> Result<(), AllocError> {
        put_parts(
            out,
            &Parts {
                name: &self.name,
                number: &self.number,
                started: self.started,
                url: &self.url,
                props: self.props.as_slice(),
                modules: self.modules.as_slice(),
                document: self.document.as_slice(),
            },
        )?;
        put_added(out, self)
    }

    #[tactic(auto, unfolding(crate::specs::ReadingRows::build_row_at))]
    fn take(alloc: Global, reader: &mut Reader<'_>) -> Result<BuildRow, DecodeFault> {
        let info = BuildInfo::take(alloc, reader)?;
        let added = take_added(alloc, reader)?;
        Ok(row_of_parts(info, added))
    }
}
