//! Objects, their members and lists of objects in the printed form.
ghost use Rattle.std.specs.Prelude.{◌≡◌, ◌++◌, ◌∷◌, [], OnOk, string_bytes};
ghost use Rattle.arti_aql_parse.specs.Print.{row, object_text, member_text, member_texts, object_texts};
ghost use Rattle.arti_aql_parse.specs.Tree as plain;
ghost use Rattle.arti_aql_parse.specs.View.{object_view, member_view, members_view, objects_view};

use crate::print_parts::{group_name, push_comma, push_operand};
use crate::query::{Member, Object};
use crate::words::Group;
use arti_json::push_text;
use std::alloc::{AllocError, Global};

// Appends an object. So many braces and brackets may still be opened.
#[cycle(tree_text)]
fn push_object(
    alloc: Global,
    out: &mut String,
    object: &Object,
    left: u32,
) -> Result<(), AllocError>
    ensures { OnOk result (string_bytes out.new ≡ string_bytes out.old ++ object_text (object_view object.now) left) }
{
    if left == 0 {
        return Ok(());
    }
    out.push_str("{")?;
    push_members(alloc, out, object.members.as_slice(), left - 1)?;
    out.push_str("}")
}

// Appends members with commas between them.
#[cycle(tree_text)]
fn push_members(
    alloc: Global,
    out: &mut String,
    members: &[Member],
    left: u32,
) -> Result<(), AllocError>
    ensures { OnOk result (string_bytes out.new ≡ string_bytes out.old ++ row (member_texts (members_view members.now) left)) }
{
    for i in 0..members.len() {
        push_comma(out, i)?;
        push_member(alloc, out, &members[i], left)?;
    }
    Ok(())
}

#[cycle(tree_text)]
fn push_member(
    alloc: Global,
    out: &mut String,
    member: &Member,
    left: u32,
) -> Result<(), AllocError>
    ensures { OnOk result (string_bytes out.new ≡ string_bytes out.old ++ member_text (member_view member.now) left) }
{
    match member {
        Member::All(objects) => push_group(alloc, out, Group::All, objects.as_slice(), left),
        Member::Any(objects) => push_group(alloc, out, Group::Any, objects.as_slice(), left),
        Member::Same(objects) => push_group(alloc, out, Group::Same, objects.as_slice(), left),
        Member::Tests(key, tests) => {
            push_text(alloc, out, key.as_str())?;
            out.push_str(":")?;
            push_operand(alloc, out, tests.as_slice())
        }
    }
}

#[cycle(tree_text)]
fn push_group(
    alloc: Global,
    out: &mut String,
    group: Group,
    objects: &[Object],
    left: u32,
) -> Result<(), AllocError>
    ensures { OnOk result (string_bytes out.new ≡ string_bytes out.old ++ member_text (plain.group group (objects_view objects.now)) left) }
{
    push_text(alloc, out, group_name(group))?;
    out.push_str(":")?;
    if left == 0 {
        return Ok(());
    }
    out.push_str("[")?;
    push_objects(alloc, out, objects, left - 1)?;
    out.push_str("]")
}

/// Appends objects with commas between them. So many braces and brackets may still be opened.
#[cycle(tree_text)]
pub fn push_objects(
    alloc: Global,
    out: &mut String,
    objects: &[Object],
    left: u32,
) -> Result<(), AllocError>
    ensures { OnOk result (string_bytes out.new ≡ string_bytes out.old ++ row (object_texts (objects_view objects.now) left)) }
{
    for i in 0..objects.len() {
        push_comma(out, i)?;
        push_object(alloc, out, &objects[i], left)?;
    }
    Ok(())
}
