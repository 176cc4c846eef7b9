// Definitions of repositories.
ghost use Rattle.std.specs.Prelude.{◌≡◌, ◌++◌, OnOk, codes, nat_eq};
ghost use Rattle.std.specs.List.{list_all, starts_with};
ghost use Rattle.arti_rows.specs.Names.{is_repo_key};
ghost use Rattle.arti_codec.specs.Rules.{fits_class, is_definition};
ghost use Rattle.arti_codec.specs.ChangeBytes.{class_byte, text_or_none, definition};
ghost use Rattle.arti_codec.specs.Reading.{Gives, GivesSeen};
ghost use Rattle.arti_codec.specs.ReadingRows.{class_at, text_or_none_at, patterns_at, definition_parts_at, definition_at};
ghost use Rattle.arti_codec.specs.Seen.{patterns_seen};

use crate::fault::DecodeFault;
use crate::field::{Field, put_list16, put_u16, take_some16};
use crate::reader::Reader;
use arti_rows::{Class, RepoDef, Text, is_repo_key};
use std::alloc::{AllocError, Global};

impl Field for Class {
    ghost format = { class_byte };

    ghost read = { class_at };

    #[tactic(auto, unfolding(crate::specs::ChangeBytes::class_byte))]
    fn put(&self, out: &mut Vec<u8>) -> Result<(), AllocError> {
        match self {
            Class::Local => out.push(0)?,
            Class::Remote => out.push(1)?,
            Class::Virtual => out.push(2)?,
        }
        Ok(())
    }

    #[tactic(auto, unfolding(crate::specs::ReadingRows::class_at))]
    fn take(_alloc: Global, reader: &mut Reader<'_>) -> Result<Class, DecodeFault> {
        match reader.u8()? {
            0 => Ok(Class::Local),
            1 => Ok(Class::Remote),
            2 => Ok(Class::Virtual),
            _ => Err(DecodeFault::NotAChange),
        }
    }
}

// Adds a text, or an empty one for none.
#[tactic(auto, unfolding(crate::specs::ChangeBytes::text_or_none, crate::specs::ChangeBytes::text))]
fn put_or_empty(out: &mut Vec<u8>, text: &Option<Text>) -> Result<(), AllocError>
    requires { text_or_none.keeps text.now }
    ensures { OnOk result (out.new.items ≡ out.old.items ++ text_or_none.spell text.now) }
{
    match text {
        Some(text) => text.put(out)?,
        None => put_u16(out, 0)?,
    }
    Ok(())
}

// Reads a text, and takes an empty one for none.
#[tactic(auto, unfolding(crate::specs::ReadingRows::text_or_none_at))]
fn take_unless_empty(alloc: Global, reader: &mut Reader<'_>) -> Result<Option<Text>, DecodeFault>
    ensures { Gives result (text_or_none_at reader.old) reader.new }
{
    let text = reader.text()?;
    if text.is_empty() {
        return Ok(None);
    }
    Ok(Some(Text::from_str(alloc, text)?))
}

fn are_repo_keys(keys: &[Text]) -> bool
    ensures { result ≡ list_all is_repo_key keys.now }
{
    keys.iter().all(|key| is_repo_key(key.as_str()))
}

// Whether the class allows such a key, URL and members.
fn fits_class(class: Class, key: &str, url: &str, members: &[Text]) -> bool
    ensures { result ≡ fits_class class key.now url.now members.now }
{
    match class {
        Class::Local => url.is_empty() && members.is_empty(),
        Class::Remote => key.len() <= 58 && is_http(url) && members.is_empty(),
        Class::Virtual => url.is_empty() && are_repo_keys(members),
    }
}

fn is_http(url: &str) -> bool
    ensures { result ≡ starts_with nat_eq url.now (codes "http://") }
{
    url.as_bytes().starts_with(b"http://")
}

fn is_definition(def: &RepoDef) -> bool
    ensures { result ≡ is_definition def.now }
{
    is_repo_key(def.key.as_str())
        && fits_class(
            def.class,
            def.key.as_str(),
            def.url.as_str(),
            def.members.as_slice(),
        )
}

// What stands behind a definition's members.
#[derive(Drop)]
struct Patterns {
    default_to: Option<Text>,
    includes: Text,
    excludes: Text,
}

// Reads what stands behind a definition's members.
#[tactic(auto, unfolding(crate::specs::ReadingRows::patterns_at))]
fn take_patterns(alloc: Global, reader: &mut Reader<'_>) -> Result<Patterns, DecodeFault>
    ensures { GivesSeen patterns_seen result (patterns_at reader.old) reader.new }
{
    let default_to = take_unless_empty(alloc, reader)?;
    let includes = Text::take(alloc, reader)?;
    let excludes = Text::take(alloc, reader)?;
    Ok(Patterns {
        default_to,
        includes,
        excludes,
    })
}

// Reads a definition, whatever its rules.
#[tactic(auto, unfolding(crate::specs::ReadingRows::definition_parts_at))]
fn take_parts(alloc: Global, reader: &mut Reader<'_>) -> Result<RepoDef, DecodeFault>
    ensures { Gives result (definition_parts_at reader.old) reader.new }
{
    let key = Text::take(alloc, reader)?;
    let class = Class::take(alloc, reader)?;
    let url = Text::take(alloc, reader)?;
    let members = take_some16::<Text>(alloc, reader, 256)?;
    let patterns = take_patterns(alloc, reader)?;
    Ok(RepoDef {
        key,
        class,
        url,
        members,
        default_to: patterns.default_to,
        includes: patterns.includes,
        excludes: patterns.excludes,
    })
}

impl Field for RepoDef {
    ghost format = { definition };

    ghost read = { definition_at };

    #[tactic(auto, unfolding(crate::specs::ChangeBytes::definition))]
    fn put(&self, out: &mut Vec<u8>) -> Result<(), AllocError> {
        self.key.put(out)?;
        self.class.put(out)?;
        self.url.put(out)?;
        put_list16(out, self.members.as_slice())?;
        put_or_empty(out, &self.default_to)?;
        self.includes.put(out)?;
        self.excludes.put(out)?;
        Ok(())
    }

    #[tactic(auto, unfolding(crate::specs::ReadingRows::definition_at))]
    fn take(alloc: Global, reader: &mut Reader<'_>) -> Result<RepoDef, DecodeFault> {
        let def = take_parts(alloc, reader)?;
        if !is_definition(&def) {
            return Err(DecodeFault::NotAChange);
        }
        Ok(def)
    }
}
