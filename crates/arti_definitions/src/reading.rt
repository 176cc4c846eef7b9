//! A whole body that defines a repository.
ghost use Rattle.std.specs.Prelude.{◌≡◌, ◌≢◌, Ok, Err, Some, None, IfOk, IfErr};
ghost use Rattle.serde_json.specs.View.{view};
ghost use Rattle.arti_definitions.specs.Documents.{document};
ghost use Rattle.arti_definitions.specs.Body.{definition_in, definition_of};

use crate::members::{class_at, default_at, members_at, own_key_at, pattern_at, url_at};
use arti_json::{JsonFault, read};
use arti_rows::RepoDef;
use serde_json::Value;
use std::alloc::Global;

// The document that bytes spell.
fn document_of(alloc: Global, bytes: &[u8]) -> Result<Value, JsonFault>
    ensures ok { IfOk result (λ v. document bytes.now ≡ Some (view v)) }
    ensures fault { IfErr result (λ e. e ≢ JsonFault.Memory → (e ≡ JsonFault.NotJson) × (document bytes.now ≡ None)) }
{
    read(alloc, bytes)
}

fn definition_in(alloc: Global, key: &str, document: &Value) -> Result<RepoDef, JsonFault>
    ensures ok { IfOk result (λ d. definition_in key.now (view document.now) ≡ Ok d) }
    ensures fault { IfErr result (λ e. e ≢ JsonFault.Memory → definition_in key.now (view document.now) ≡ Err e) }
{
    let class = class_at(alloc, document)?;
    let url = url_at(alloc, document, class)?;
    let members = members_at(alloc, document, class)?;
    let default_to = default_at(alloc, document, class)?;
    let includes = pattern_at(alloc, document, "includesPattern", "**/*")?;
    let excludes = pattern_at(alloc, document, "excludesPattern", "")?;
    let key = own_key_at(alloc, document, class, key)?;
    Ok(RepoDef {
        key,
        class,
        url,
        members,
        default_to,
        includes,
        excludes,
    })
}

/// The definition of a key that a body gives, or the first fault of its members in their order: `rclass`, `url`,
/// `repositories`, `defaultDeploymentRepo`, `includesPattern`, `excludesPattern`, `key`. Other members are passed over, and those
/// that another class has.
pub fn read_definition(alloc: Global, key: &str, body: &[u8]) -> Result<RepoDef, JsonFault>
    ensures ok { IfOk result (λ d. definition_of key.now body.now ≡ Ok d) }
    ensures fault { IfErr result (λ e. e ≢ JsonFault.Memory → definition_of key.now body.now ≡ Err e) }
{
    let document = document_of(alloc, body)?;
    definition_in(alloc, key, &document)
}
