// Definitions by their keys.
ghost use Rattle.std.specs.Prelude.{◌≡◌, ◌<◌, IfOk, IfErr, OnOk, OnErr, slice_set, vec_len};
ghost use Rattle.std.specs.Option.{option_copied};
ghost use Rattle.arti_repos.specs.Definitions.{InOrder, is_of, definition, cached_by, remote_of, put_definition};
ghost use Rattle.arti_rows.specs.declared.rows.Class.TheVariants.{Remote};
ghost use Rattle.arti_repos.specs.Places.{IsPlace, IsGap};

use arti_rows::{Class, RepoDef};
use std::alloc::AllocError;

/// Where the definition of a key stands, or where it is to be put.
pub(crate) fn place_of(definitions: &[RepoDef], key: &str) -> Result<usize, usize>
    requires order { InOrder definitions.now }
    ensures found { IfOk result (λ at. IsPlace definitions.now key.now at) }
    ensures missing { IfErr result (λ at. IsGap definitions.now key.now at) }
{
    definitions.binary_search_by(|def| def.key.as_str().cmp(key))
}

/// The definition of a key.
pub(crate) fn find<'a>(definitions: &'a [RepoDef], key: &str) -> Option<&'a RepoDef>
    requires order { InOrder definitions.now }
    ensures { option_copied result ≡ definition definitions.now key.now }
{
    match place_of(definitions, key) {
        Ok(at) => Some(&definitions[at]),
        Err(_) => None,
    }
}

/// The remote whose cache the key is.
pub(crate) fn cached_by<'a>(definitions: &'a [RepoDef], key: &str) -> Option<&'a RepoDef>
    requires order { InOrder definitions.now }
    ensures { option_copied result ≡ cached_by definitions.now key.now }
{
    match key.strip_suffix("-cache") {
        Some(front) => only_remote(find(definitions, front)),
        None => None,
    }
}

fn only_remote(found: Option<&RepoDef>) -> Option<&RepoDef>
    ensures { option_copied result ≡ remote_of (option_copied found.entry) }
{
    match found {
        Some(def) if is_remote(def) => Some(def),
        _ => None,
    }
}

fn is_remote(def: &RepoDef) -> bool
    ensures { result ≡ is_of Remote def.now }
{
    match def.class {
        Class::Remote => true,
        _ => false,
    }
}

/// Puts a definition at its place. An `Err` changes nothing.
pub(crate) fn put(definitions: &mut Vec<RepoDef>, def: RepoDef) -> Result<(), AllocError>
    requires order { InOrder definitions.old.items }
    ensures put { OnOk result (definitions.new.items ≡ put_definition def definitions.old.items) }
    ensures unchanged { OnErr result (definitions.new.items ≡ definitions.old.items) }
    ensures order { InOrder definitions.new.items }
{
    match place_of(definitions, def.key.as_str()) {
        Ok(at) => set_at(definitions, at, def),
        Err(at) => definitions.insert(at, def)?,
    }
    Ok(())
}

// Puts a definition in the stead of another.
fn set_at(definitions: &mut Vec<RepoDef>, at: usize, def: RepoDef)
    requires { at < vec_len definitions.old }
    ensures { definitions.new.items ≡ slice_set definitions.old.items at def }
{
    definitions[at] = def;
}
