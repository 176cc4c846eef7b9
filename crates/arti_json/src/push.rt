// Texts behind the text that was written before.
ghost use Rattle.std.specs.Prelude.{◌≡◌, ◌++◌, false, OnOk, string_bytes};
ghost use Rattle.std.specs.List.{list_any};
ghost use Rattle.json.specs.Print.{quoted};
ghost use Rattle.arti_json.specs.Escapes.{has_escape};

use crate::escape::needs_escape;
use serde_json::Value;
use std::alloc::{AllocError, Global};

/// Appends a text in quotes, with the shortest escapes. After an error some of it may stand there.
pub fn push_text(alloc: Global, out: &mut String, text: &str) -> Result<(), AllocError>
    ensures { OnOk result (string_bytes out.new ≡ string_bytes out.old ++ quoted text.now) }
{
    if needs_escape(text.as_bytes()) {
        push_escaped(alloc, out, text)
    } else {
        push_plain(out, text)
    }
}

// A text that needs no escape.
fn push_plain(out: &mut String, text: &str) -> Result<(), AllocError>
    requires { list_any has_escape text.now ≡ false }
    ensures { OnOk result (string_bytes out.new ≡ string_bytes out.old ++ quoted text.now) }
{
    out.push_str("\"")?;
    out.push_str(text)?;
    out.push_str("\"")
}

// Any text.
fn push_escaped(alloc: Global, out: &mut String, text: &str) -> Result<(), AllocError>
    ensures { OnOk result (string_bytes out.new ≡ string_bytes out.old ++ quoted text.now) }
{
    let value = Value::String(String::from_str(alloc, text)?);
    let escaped = value.to_string(alloc)?;
    out.push_str(&escaped)
}
