// Texts, moments, keys of items, and names.
ghost use Rattle.std.specs.Prelude.{◌≡◌, ◌++◌, ◌∷◌, ◌&&◌, false, IfOk, IfErr, OnOk, OnErr, nat_eq, string_bytes};
ghost use Rattle.std.specs.Cmp.Lexicographic.{pointwise};
ghost use Rattle.arti_rows.specs.Key.{whole_of};
ghost use Rattle.arti_codec.specs.declared.fault.DecodeFault.TheVariants.{NotAChange};
ghost use Rattle.arti_codec.specs.Rules.{is_build_name};
ghost use Rattle.arti_codec.specs.ChangeBytes.{text, moment, item_key, build_name};
ghost use Rattle.arti_codec.specs.Reading.{Gives, Passes};
ghost use Rattle.arti_codec.specs.ReadingRows.{text_at, moment_at, is_key, item_key_at, build_name_at};

use crate::fault::DecodeFault;
use crate::field::{Field, put_u16, put_u64};
use crate::reader::Reader;
use arti_rows::{ItemKey, KeyFault, Moment, Text, has_control};
use std::alloc::{AllocError, Global};

impl Field for Text {
    ghost format = { text };

    ghost read = { text_at };

    #[tactic(auto, unfolding(crate::specs::ChangeBytes::text))]
    fn put(&self, out: &mut Vec<u8>) -> Result<(), AllocError> {
        let bytes = self.as_str().as_bytes();
        put_u16(out, bytes.len() as u16)?;
        out.extend_from_slice(bytes)?;
        Ok(())
    }

    fn take(alloc: Global, reader: &mut Reader<'_>) -> Result<Text, DecodeFault> {
        let read = reader.text()?;
        Ok(Text::from_str(alloc, read)?)
    }
}

impl Field for Moment {
    ghost format = { moment };

    ghost read = { moment_at };

    #[tactic(auto, unfolding(crate::specs::ChangeBytes::moment))]
    fn put(&self, out: &mut Vec<u8>) -> Result<(), AllocError> {
        put_u64(out, self.ms().cast_unsigned())
    }

    #[tactic(auto, unfolding(crate::specs::ReadingRows::moment_at), using(crate::proofs::MomentTests::moment_tests))]
    fn take(_alloc: Global, reader: &mut Reader<'_>) -> Result<Moment, DecodeFault> {
        let ms = reader.u64()?.cast_signed();
        match Moment::new(ms) {
            Some(moment) => Ok(moment),
            None => Err(DecodeFault::NotAChange),
        }
    }
}

impl Field for ItemKey {
    ghost format = { item_key };

    ghost read = { item_key_at };

    #[tactic(auto, unfolding(crate::specs::ChangeBytes::item_key))]
    fn put(&self, out: &mut Vec<u8>) -> Result<(), AllocError> {
        self.repo.put(out)?;
        self.path.put(out)?;
        self.name.put(out)?;
        Ok(())
    }

    #[tactic(auto, unfolding(crate::specs::ReadingRows::item_key_at))]
    fn take(alloc: Global, reader: &mut Reader<'_>) -> Result<ItemKey, DecodeFault> {
        let repo = reader.text()?;
        let path = reader.text()?;
        let name = reader.text()?;
        key_of_parts(alloc, repo, path, name)
    }
}

// The key of these three parts.
fn key_of_parts(alloc: Global, repo: &str, path: &str, name: &str) -> Result<ItemKey, DecodeFault>
    ensures { Passes result is_key (record { repo = repo.now; path = path.now; name = name.now }) }
{
    if path == "." {
        return key_of_whole(alloc, repo, name, path, name);
    }
    let whole = joined(alloc, path, name)?;
    key_of_whole(alloc, repo, whole.as_str(), path, name)
}

// The key of a repository and of a path and name joined, which is cut into just these two.
#[tactic(auto, unfolding(crate::specs::ReadingRows::is_key))]
fn key_of_whole(
    alloc: Global,
    repo: &str,
    whole: &str,
    path: &str,
    name: &str,
) -> Result<ItemKey, DecodeFault>
    requires { whole.now ≡ whole_of (record { repo = repo.now; path = path.now; name = name.now }) }
    ensures { Passes result is_key (record { repo = repo.now; path = path.now; name = name.now }) }
{
    match ItemKey::new(alloc, repo, whole) {
        Ok(key) => cut_so(key, path, name),
        Err(KeyFault::Memory) => Err(DecodeFault::Memory),
        Err(KeyFault::BadName) => Err(DecodeFault::NotAChange),
        Err(KeyFault::TooLong) => Err(DecodeFault::NotAChange),
    }
}

// The key, where its path and name are these.
fn cut_so(key: ItemKey, path: &str, name: &str) -> Result<ItemKey, DecodeFault>
    ensures ok { IfOk result (λ k. (k ≡ key) × (key.path ≡ path.now) × (key.name ≡ name.now)) }
    ensures err { OnErr result (pointwise nat_eq key.path path.now && pointwise nat_eq key.name name.now ≡ false) }
    ensures fault { IfErr result (λ f. f ≡ NotAChange) }
{
    if key.path.as_str() == path && key.name.as_str() == name {
        return Ok(key);
    }
    Err(DecodeFault::NotAChange)
}

// A path and a name with a slash between them.
fn joined(alloc: Global, path: &str, name: &str) -> Result<String, AllocError>
    ensures { IfOk result (λ t. string_bytes t ≡ path.now ++ 47 ∷ name.now) }
{
    let mut whole = String::from_str(alloc, path)?;
    whole.push_str("/")?;
    whole.push_str(name)?;
    Ok(whole)
}

// Whether a text may be a build's name or number.
fn is_build_name(name: &str) -> bool
    ensures { result ≡ is_build_name name.now }
{
    !name.is_empty() && name.len() <= 255 && !has_control(name.as_bytes())
}

// Adds the bytes of a build's name or number.
#[tactic(auto, unfolding(crate::specs::ChangeBytes::build_name))]
pub fn put_build_name(out: &mut Vec<u8>, name: &Text) -> Result<(), AllocError>
    requires { build_name.keeps name.now }
    ensures { OnOk result (out.new.items ≡ out.old.items ++ build_name.spell name.now) }
{
    name.put(out)
}

// Reads a build's name or number.
#[tactic(auto, unfolding(crate::specs::ReadingRows::build_name_at))]
pub fn take_build_name(alloc: Global, reader: &mut Reader<'_>) -> Result<Text, DecodeFault>
    ensures { Gives result (build_name_at reader.old) reader.new }
{
    let name = reader.text()?;
    if !is_build_name(name) {
        return Err(DecodeFault::NotAChange);
    }
    Ok(Text::from_str(alloc, name)?)
}
