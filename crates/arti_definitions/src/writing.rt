//! Definitions as JSON texts.
ghost use Rattle.std.specs.Prelude.{◌≡◌, ◌++◌, ◌∷◌, [], OnOk, IfOk, map, flat_map, codes};
ghost use Rattle.json.specs.Print.{quoted};
ghost use Rattle.arti_definitions.specs.Written.{class_name, type_name, text_or_none, with_commas, after, kind_text, members_text, patterns_text, definition_text, entry_text, list_text};

use arti_json::write_text;
use arti_rows::{Class, RepoDef, Text};
use std::alloc::{AllocError, Global};

fn class_name(class: Class) -> &'static str
    ensures { result.now ≡ class_name class }
{
    match class {
        Class::Local => "local",
        Class::Remote => "remote",
        Class::Virtual => "virtual",
    }
}

fn type_name(class: Class) -> &'static str
    ensures { result.now ≡ type_name class }
{
    match class {
        Class::Local => "LOCAL",
        Class::Remote => "REMOTE",
        Class::Virtual => "VIRTUAL",
    }
}

fn text_or_none(text: &Option<Text>) -> &str
    ensures { result.now ≡ text_or_none text.now }
{
    match text {
        None => "",
        Some(text) => text.as_str(),
    }
}

// A text behind what stands before it.
fn write_after(alloc: Global, out: &mut Vec<u8>, front: &str, text: &str) -> Result<(), AllocError>
    ensures { OnOk result (out.new.items ≡ out.old.items ++ after front.now text.now) }
{
    out.extend_from_slice(front.as_bytes())?;
    write_text(alloc, out, text)
}

// A text behind a comma.
fn write_next(alloc: Global, out: &mut Vec<u8>, text: &str) -> Result<(), AllocError>
    ensures { OnOk result (out.new.items ≡ out.old.items ++ 44 ∷ quoted text.now) }
{
    out.push(b',')?;
    write_text(alloc, out, text)
}

fn write_others(alloc: Global, out: &mut Vec<u8>, texts: &[Text]) -> Result<(), AllocError>
    ensures { OnOk result (out.new.items ≡ out.old.items ++ flat_map (λ t. 44 ∷ t) (map quoted texts.now)) }
{
    for text in texts {
        write_next(alloc, out, text.as_str())?;
    }
    Ok(())
}

// Texts with a comma between them.
fn write_texts(alloc: Global, out: &mut Vec<u8>, texts: &[Text]) -> Result<(), AllocError>
    ensures { OnOk result (out.new.items ≡ out.old.items ++ with_commas (map quoted texts.now)) }
{
    match texts.split_first() {
        None => Ok(()),
        Some((first, others)) => {
            write_text(alloc, out, first.as_str())?;
            write_others(alloc, out, others)
        }
    }
}

fn write_kind(alloc: Global, out: &mut Vec<u8>, def: &RepoDef) -> Result<(), AllocError>
    ensures { OnOk result (out.new.items ≡ out.old.items ++ kind_text def.now) }
{
    write_after(alloc, out, "{\"key\":", def.key.as_str())?;
    write_after(alloc, out, ",\"rclass\":", class_name(def.class))?;
    write_after(alloc, out, ",\"url\":", def.url.as_str())?;
    Ok(())
}

fn write_members(alloc: Global, out: &mut Vec<u8>, def: &RepoDef) -> Result<(), AllocError>
    ensures { OnOk result (out.new.items ≡ out.old.items ++ members_text def.now) }
{
    out.extend_from_slice(b",\"repositories\":[")?;
    write_texts(alloc, out, def.members.as_slice())?;
    let default_to = text_or_none(&def.default_to);
    write_after(alloc, out, "],\"defaultDeploymentRepo\":", default_to)?;
    Ok(())
}

fn write_patterns(alloc: Global, out: &mut Vec<u8>, def: &RepoDef) -> Result<(), AllocError>
    ensures { OnOk result (out.new.items ≡ out.old.items ++ patterns_text def.now) }
{
    write_after(alloc, out, ",\"includesPattern\":", def.includes.as_str())?;
    write_after(alloc, out, ",\"excludesPattern\":", def.excludes.as_str())?;
    out.extend_from_slice(b"}")?;
    Ok(())
}

/// The object of a definition.
pub fn write_definition(alloc: Global, def: &RepoDef) -> Result<Vec<u8>, AllocError>
    ensures { IfOk result (λ v. v.items ≡ definition_text def.now) }
{
    let mut out = Vec::new(alloc);
    write_kind(alloc, &mut out, def)?;
    write_members(alloc, &mut out, def)?;
    write_patterns(alloc, &mut out, def)?;
    Ok(out)
}

fn write_entry(alloc: Global, out: &mut Vec<u8>, def: &RepoDef) -> Result<(), AllocError>
    ensures { OnOk result (out.new.items ≡ out.old.items ++ entry_text def.now) }
{
    write_after(alloc, out, "{\"key\":", def.key.as_str())?;
    write_after(alloc, out, ",\"type\":", type_name(def.class))?;
    out.extend_from_slice(b"}")?;
    Ok(())
}

// An entry behind a comma.
fn write_next_entry(alloc: Global, out: &mut Vec<u8>, def: &RepoDef) -> Result<(), AllocError>
    ensures { OnOk result (out.new.items ≡ out.old.items ++ 44 ∷ entry_text def.now) }
{
    out.push(b',')?;
    write_entry(alloc, out, def)
}

fn write_other_entries(alloc: Global, out: &mut Vec<u8>, defs: &[RepoDef]) -> Result<(), AllocError>
    ensures { OnOk result (out.new.items ≡ out.old.items ++ flat_map (λ t. 44 ∷ t) (map entry_text defs.now)) }
{
    for def in defs {
        write_next_entry(alloc, out, def)?;
    }
    Ok(())
}

// Entries with a comma between them.
fn write_entries(alloc: Global, out: &mut Vec<u8>, defs: &[RepoDef]) -> Result<(), AllocError>
    ensures { OnOk result (out.new.items ≡ out.old.items ++ with_commas (map entry_text defs.now)) }
{
    match defs.split_first() {
        None => Ok(()),
        Some((first, others)) => {
            write_entry(alloc, out, first)?;
            write_other_entries(alloc, out, others)
        }
    }
}

/// The list of all definitions, each with its key and its kind.
pub fn write_list(alloc: Global, defs: &[RepoDef]) -> Result<Vec<u8>, AllocError>
    ensures { IfOk result (λ v. v.items ≡ list_text defs.now) }
{
    let mut out = Vec::from_slice(alloc, b"[")?;
    write_entries(alloc, &mut out, defs)?;
    out.extend_from_slice(b"]")?;
    Ok(out)
}
