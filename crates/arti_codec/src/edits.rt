// Edits.
ghost use Rattle.std.specs.Prelude.{◌≡◌, ◌++◌, ◌∷◌, OnOk};
ghost use Rattle.arti_rows.specs.declared.edits.Edit.TheVariants.{Define, Folder, File, Remove, Move, Copy, SetProps, DropProps, Downloaded, Build, Unbuild, Promote, Kept, Item, Held};
ghost use Rattle.arti_codec.specs.Format.{◌⨟◌};
ghost use Rattle.arti_codec.specs.ChangeBytes.{item_key, build_name, file_fields, set_fields, drop_fields, promote_fields, edit};
ghost use Rattle.arti_codec.specs.Reading.{Gives, made, ◌▷◌};
ghost use Rattle.arti_codec.specs.ReadingRows.{definition_at, item_key_at, file_ref_at, item_row_at, build_name_at, build_info_at, build_row_at, file_fields_at, set_fields_at, drop_fields_at, promote_fields_at, fields_at, edit_at};

use crate::fault::DecodeFault;
use crate::field::{Field, put_list16};
use crate::props::{take_prop_keys, take_properties};
use crate::reader::Reader;
use crate::texts::{put_build_name, take_build_name};
use arti_rows::{
    BuildInfo, BuildRow, Edit, FileRef, Given, ItemKey, ItemRow, PromotionRow, Property, RepoDef,
    Seq, Text,
};
use std::alloc::{AllocError, Global};

impl Field for Edit {
    ghost format = { edit };

    ghost read = { edit_at };

    #[tactic(auto, unfolding(crate::specs::ChangeBytes::edit))]
    fn put(&self, out: &mut Vec<u8>) -> Result<(), AllocError> {
        match self {
            Edit::Define { def } => put_tagged(out, 1, def),
            Edit::Folder { key } => put_tagged(out, 2, key),
            Edit::File {
                key,
                given,
                file,
                props,
            } => put_file(out, key, given, file, props),
            Edit::Remove { key } => put_tagged(out, 4, key),
            Edit::Move { from, to } => put_keys(out, 5, from, to),
            Edit::Copy { from, to } => put_keys(out, 6, from, to),
            Edit::SetProps { key, deep, props } => put_set_props(out, key, *deep, props),
            Edit::DropProps { key, deep, keys } => put_drop_props(out, key, *deep, keys),
            Edit::Downloaded { key } => put_tagged(out, 9, key),
            Edit::Build { info } => put_tagged(out, 10, info),
            Edit::Unbuild { name, number } => put_unbuild(out, name, number),
            Edit::Promote { name, number, row } => put_promote(out, name, number, row),
            Edit::Kept { file } => put_tagged(out, 13, file),
            Edit::Item { row } => put_tagged(out, 14, row),
            Edit::Held { row } => put_tagged(out, 15, row),
        }
    }

    #[tactic(auto, unfolding(crate::specs::ReadingRows::edit_at))]
    fn take(alloc: Global, reader: &mut Reader<'_>) -> Result<Edit, DecodeFault> {
        let tag = reader.u8()?;
        take_fields(alloc, reader, tag)
    }
}

// Adds the number of an edit and its one field.
fn put_tagged<T: Field>(out: &mut Vec<u8>, tag: u8, field: &T) -> Result<(), AllocError>
    requires { T.format.keeps field.now }
    ensures { OnOk result (out.new.items ≡ out.old.items ++ tag ∷ T.format.spell field.now) }
{
    out.push(tag)?;
    field.put(out)?;
    Ok(())
}

// Adds the number of an edit and two keys.
fn put_keys(out: &mut Vec<u8>, tag: u8, from: &ItemKey, to: &ItemKey) -> Result<(), AllocError>
    requires { (item_key ⨟ item_key).keeps (from.now, to.now) }
    ensures { OnOk result (out.new.items ≡ out.old.items ++ tag ∷ (item_key ⨟ item_key).spell (from.now, to.now)) }
{
    out.push(tag)?;
    from.put(out)?;
    to.put(out)?;
    Ok(())
}

#[tactic(auto, unfolding(crate::specs::ChangeBytes::file_fields, crate::specs::ChangeBytes::properties))]
fn put_file(
    out: &mut Vec<u8>,
    key: &ItemKey,
    given: &Given,
    file: &FileRef,
    props: &Seq<Property>,
) -> Result<(), AllocError>
    requires { file_fields.keeps (key.now, (given.now, (file.now, props.now))) }
    ensures { OnOk result (out.new.items ≡ out.old.items ++ 3 ∷ file_fields.spell (key.now, (given.now, (file.now, props.now)))) }
{
    out.push(3)?;
    key.put(out)?;
    given.put(out)?;
    file.put(out)?;
    put_list16(out, props.as_slice())?;
    Ok(())
}

#[tactic(auto, unfolding(crate::specs::ChangeBytes::set_fields, crate::specs::ChangeBytes::properties))]
fn put_set_props(
    out: &mut Vec<u8>,
    key: &ItemKey,
    deep: bool,
    props: &Seq<Property>,
) -> Result<(), AllocError>
    requires { set_fields.keeps (key.now, (deep, props.now)) }
    ensures { OnOk result (out.new.items ≡ out.old.items ++ 7 ∷ set_fields.spell (key.now, (deep, props.now))) }
{
    out.push(7)?;
    key.put(out)?;
    out.push(u8::from(deep))?;
    put_list16(out, props.as_slice())?;
    Ok(())
}

#[tactic(auto, unfolding(crate::specs::ChangeBytes::drop_fields, crate::specs::ChangeBytes::prop_keys))]
fn put_drop_props(
    out: &mut Vec<u8>,
    key: &ItemKey,
    deep: bool,
    keys: &Seq<Text>,
) -> Result<(), AllocError>
    requires { drop_fields.keeps (key.now, (deep, keys.now)) }
    ensures { OnOk result (out.new.items ≡ out.old.items ++ 8 ∷ drop_fields.spell (key.now, (deep, keys.now))) }
{
    out.push(8)?;
    key.put(out)?;
    out.push(u8::from(deep))?;
    put_list16(out, keys.as_slice())?;
    Ok(())
}

fn put_unbuild(out: &mut Vec<u8>, name: &Text, number: &Text) -> Result<(), AllocError>
    requires { (build_name ⨟ build_name).keeps (name.now, number.now) }
    ensures { OnOk result (out.new.items ≡ out.old.items ++ 11 ∷ (build_name ⨟ build_name).spell (name.now, number.now)) }
{
    out.push(11)?;
    put_build_name(out, name)?;
    put_build_name(out, number)?;
    Ok(())
}

#[tactic(auto, unfolding(crate::specs::ChangeBytes::promote_fields))]
fn put_promote(
    out: &mut Vec<u8>,
    name: &Text,
    number: &Text,
    row: &PromotionRow,
) -> Result<(), AllocError>
    requires { promote_fields.keeps (name.now, (number.now, row.now)) }
    ensures { OnOk result (out.new.items ≡ out.old.items ++ 12 ∷ promote_fields.spell (name.now, (number.now, row.now))) }
{
    out.push(12)?;
    put_build_name(out, name)?;
    put_build_name(out, number)?;
    row.put(out)?;
    Ok(())
}

// Reads the fields of the edit with that number.
#[tactic(auto, unfolding(crate::specs::ReadingRows::fields_at))]
fn take_fields(alloc: Global, reader: &mut Reader<'_>, tag: u8) -> Result<Edit, DecodeFault>
    ensures { Gives result (fields_at tag reader.old) reader.new }
{
    match tag {
        1 => take_define(alloc, reader),
        2 => take_folder(alloc, reader),
        3 => take_file(alloc, reader),
        4 => take_remove(alloc, reader),
        5 => take_move(alloc, reader),
        6 => take_copy(alloc, reader),
        7 => take_set_props(alloc, reader),
        8 => take_drop_props(alloc, reader),
        9 => take_downloaded(alloc, reader),
        10 => take_build(alloc, reader),
        11 => take_unbuild(alloc, reader),
        12 => take_promote(alloc, reader),
        13 => take_kept(alloc, reader),
        14 => take_item(alloc, reader),
        15 => take_held(alloc, reader),
        _ => Err(DecodeFault::NotAChange),
    }
}

fn take_define(alloc: Global, reader: &mut Reader<'_>) -> Result<Edit, DecodeFault>
    ensures { Gives result (made (λ def. Define def) definition_at reader.old) reader.new }
{
    let def = RepoDef::take(alloc, reader)?;
    Ok(Edit::Define { def })
}

fn take_folder(alloc: Global, reader: &mut Reader<'_>) -> Result<Edit, DecodeFault>
    ensures { Gives result (made (λ key. Folder key) item_key_at reader.old) reader.new }
{
    let key = ItemKey::take(alloc, reader)?;
    Ok(Edit::Folder { key })
}

fn take_remove(alloc: Global, reader: &mut Reader<'_>) -> Result<Edit, DecodeFault>
    ensures { Gives result (made (λ key. Remove key) item_key_at reader.old) reader.new }
{
    let key = ItemKey::take(alloc, reader)?;
    Ok(Edit::Remove { key })
}

fn take_downloaded(alloc: Global, reader: &mut Reader<'_>) -> Result<Edit, DecodeFault>
    ensures { Gives result (made (λ key. Downloaded key) item_key_at reader.old) reader.new }
{
    let key = ItemKey::take(alloc, reader)?;
    Ok(Edit::Downloaded { key })
}

fn take_build(alloc: Global, reader: &mut Reader<'_>) -> Result<Edit, DecodeFault>
    ensures { Gives result (made (λ info. Build info) build_info_at reader.old) reader.new }
{
    let info = BuildInfo::take(alloc, reader)?;
    Ok(Edit::Build { info })
}

fn take_kept(alloc: Global, reader: &mut Reader<'_>) -> Result<Edit, DecodeFault>
    ensures { Gives result (made (λ file. Kept file) file_ref_at reader.old) reader.new }
{
    let file = FileRef::take(alloc, reader)?;
    Ok(Edit::Kept { file })
}

fn take_item(alloc: Global, reader: &mut Reader<'_>) -> Result<Edit, DecodeFault>
    ensures { Gives result (made (λ row. Item row) item_row_at reader.old) reader.new }
{
    let row = ItemRow::take(alloc, reader)?;
    Ok(Edit::Item { row })
}

fn take_held(alloc: Global, reader: &mut Reader<'_>) -> Result<Edit, DecodeFault>
    ensures { Gives result (made (λ row. Held row) build_row_at reader.old) reader.new }
{
    let row = BuildRow::take(alloc, reader)?;
    Ok(Edit::Held { row })
}

#[tactic(auto, unfolding(crate::specs::ReadingRows::file_fields_at))]
fn take_file(alloc: Global, reader: &mut Reader<'_>) -> Result<Edit, DecodeFault>
    ensures { Gives result (made (λ t. File t.0 t.1.0 t.1.1.0 t.1.1.1) file_fields_at reader.old) reader.new }
{
    let key = ItemKey::take(alloc, reader)?;
    let given = Given::take(alloc, reader)?;
    let file = FileRef::take(alloc, reader)?;
    let props = take_properties(alloc, reader, 1_024)?;
    Ok(Edit::File {
        key,
        given,
        file,
        props,
    })
}

fn take_move(alloc: Global, reader: &mut Reader<'_>) -> Result<Edit, DecodeFault>
    ensures { Gives result (made (λ t. Move t.0 t.1) (item_key_at ▷ item_key_at) reader.old) reader.new }
{
    let from = ItemKey::take(alloc, reader)?;
    let to = ItemKey::take(alloc, reader)?;
    Ok(Edit::Move { from, to })
}

fn take_copy(alloc: Global, reader: &mut Reader<'_>) -> Result<Edit, DecodeFault>
    ensures { Gives result (made (λ t. Copy t.0 t.1) (item_key_at ▷ item_key_at) reader.old) reader.new }
{
    let from = ItemKey::take(alloc, reader)?;
    let to = ItemKey::take(alloc, reader)?;
    Ok(Edit::Copy { from, to })
}

#[tactic(auto, unfolding(crate::specs::ReadingRows::set_fields_at))]
fn take_set_props(alloc: Global, reader: &mut Reader<'_>) -> Result<Edit, DecodeFault>
    ensures { Gives result (made (λ t. SetProps t.0 t.1.0 t.1.1) set_fields_at reader.old) reader.new }
{
    let key = ItemKey::take(alloc, reader)?;
    let deep = reader.flag()?;
    let props = take_properties(alloc, reader, 1_024)?;
    Ok(Edit::SetProps { key, deep, props })
}

#[tactic(auto, unfolding(crate::specs::ReadingRows::drop_fields_at))]
fn take_drop_props(alloc: Global, reader: &mut Reader<'_>) -> Result<Edit, DecodeFault>
    ensures { Gives result (made (λ t. DropProps t.0 t.1.0 t.1.1) drop_fields_at reader.old) reader.new }
{
    let key = ItemKey::take(alloc, reader)?;
    let deep = reader.flag()?;
    let keys = take_prop_keys(alloc, reader)?;
    Ok(Edit::DropProps { key, deep, keys })
}

fn take_unbuild(alloc: Global, reader: &mut Reader<'_>) -> Result<Edit, DecodeFault>
    ensures { Gives result (made (λ t. Unbuild t.0 t.1) (build_name_at ▷ build_name_at) reader.old) reader.new }
{
    let name = take_build_name(alloc, reader)?;
    let number = take_build_name(alloc, reader)?;
    Ok(Edit::Unbuild { name, number })
}

#[tactic(auto, unfolding(crate::specs::ReadingRows::promote_fields_at))]
fn take_promote(alloc: Global, reader: &mut Reader<'_>) -> Result<Edit, DecodeFault>
    ensures { Gives result (made (λ t. Promote t.0 t.1.0 t.1.1) promote_fields_at reader.old) reader.new }
{
    let name = take_build_name(alloc, reader)?;
    let number = take_build_name(alloc, reader)?;
    let row = PromotionRow::take(alloc, reader)?;
    Ok(Edit::Promote { name, number, row })
}
