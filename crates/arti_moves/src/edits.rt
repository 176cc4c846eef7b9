// The edits that asks come to, as copies of what is asked.
ghost use Rattle.std.specs.Prelude.{◌≡◌, ◌≤◌, length, IfOk};
ghost use Rattle.arti_rows.specs.declared.edits.Edit.TheVariants as edits;
ghost use Rattle.arti_codec.specs.ChangeBytes.{KeepsEdit, HasBytes};
ghost use Rattle.arti_model.specs.Deploys.{given_of};
ghost use Rattle.arti_model.specs.DecideItems.{one_edit};

use crate::bytes::{moment_has_bytes, text_has_bytes};
use arti_route::given_of;
use arti_rows::{Change, Edit, FileRef, ItemKey, Moment, Property, Seq, SomeDigests, Text};
use std::alloc::{AllocError, Global};

/// A change of one edit.
pub(crate) fn one_change(
    alloc: Global,
    moment: Moment,
    user: &str,
    edit: Edit,
) -> Result<Change, AllocError>
    ensures change { IfOk result (λ change. change ≡ one_edit moment user.now edit) }
    ensures bytes { KeepsEdit edit → length user.now ≤ 4096 → IfOk result HasBytes }
{
    let change = change_of(alloc, moment, user, edit)?;
    moment_has_bytes(moment);
    text_has_bytes(&change.user);
    Ok(change)
}

fn change_of(alloc: Global, moment: Moment, user: &str, edit: Edit) -> Result<Change, AllocError>
    ensures { IfOk result (λ change. change ≡ one_edit moment user.now edit) }
{
    let user = Text::from_str(alloc, user)?;
    let mut edits = Seq::new(alloc);
    edits.push(edit)?;
    Ok(Change {
        moment,
        user,
        edits,
    })
}

/// A file that comes.
pub(crate) fn file_edit(
    key: &ItemKey,
    digests: &SomeDigests,
    file: FileRef,
    props: &Seq<Property>,
) -> Result<Edit, AllocError>
    ensures { IfOk result (λ edit. edit ≡ edits.File key.now (given_of digests.now) file props.now) }
{
    let key = key.clone()?;
    let props = pairs(props)?;
    Ok(Edit::File {
        key,
        given: given_of(digests),
        file,
        props,
    })
}

/// A folder that is made.
pub(crate) fn folder_edit(key: &ItemKey) -> Result<Edit, AllocError>
    ensures { IfOk result (λ edit. edit ≡ edits.Folder key.now) }
{
    Ok(Edit::Folder { key: key.clone()? })
}

/// An item that goes with all beneath it.
pub(crate) fn remove_edit(key: &ItemKey) -> Result<Edit, AllocError>
    ensures { IfOk result (λ edit. edit ≡ edits.Remove key.now) }
{
    Ok(Edit::Remove { key: key.clone()? })
}

/// Properties that are set.
pub(crate) fn set_edit(key: &ItemKey, deep: bool, props: &Seq<Property>) -> Result<Edit, AllocError>
    ensures { IfOk result (λ edit. edit ≡ edits.SetProps key.now deep props.now) }
{
    let key = key.clone()?;
    let props = pairs(props)?;
    Ok(Edit::SetProps { key, deep, props })
}

/// Properties that go.
pub(crate) fn drop_edit(key: &ItemKey, deep: bool, keys: &Seq<Text>) -> Result<Edit, AllocError>
    ensures { IfOk result (λ edit. edit ≡ edits.DropProps key.now deep keys.now) }
{
    let key = key.clone()?;
    let keys = texts(keys)?;
    Ok(Edit::DropProps { key, deep, keys })
}

fn pairs(props: &Seq<Property>) -> Result<Seq<Property>, AllocError>
    ensures { IfOk result (λ s. s ≡ props.now) }
{
    props.clone()
}

fn texts(texts: &Seq<Text>) -> Result<Seq<Text>, AllocError>
    ensures { IfOk result (λ s. s ≡ texts.now) }
{
    texts.clone()
}
