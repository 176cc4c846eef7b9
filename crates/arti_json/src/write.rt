// Texts and numbers behind what was written before.
ghost use Rattle.std.specs.Prelude.{◌≡◌, ◌++◌, ◌+◌, ◌<◌, ◌^◌, length, OnOk, OnErr, false, decimal};
ghost use Rattle.std.specs.List.{list_any};
ghost use Rattle.json.specs.Print.{quoted};
ghost use Rattle.arti_json.specs.Escapes.{has_escape};

use crate::escape::needs_escape;
use serde_json::Value;
use std::alloc::{AllocError, Global};

/// Appends a text in quotes, with the shortest escapes.
pub fn write_text(alloc: Global, out: &mut Vec<u8>, text: &str) -> Result<(), AllocError>
    ensures ok { OnOk result (out.new.items ≡ out.old.items ++ quoted text.now) }
    ensures err { OnErr result (out.new.items ≡ out.old.items) }
{
    if needs_escape(text.as_bytes()) {
        return write_escaped(alloc, out, text);
    }
    write_plain(out, text)
}

/// Appends a number in decimal digits.
pub fn write_number(alloc: Global, out: &mut Vec<u8>, n: u64) -> Result<(), AllocError>
    ensures ok { OnOk result (out.new.items ≡ out.old.items ++ decimal n) }
    ensures err { OnErr result (out.new.items ≡ out.old.items) }
{
    let digits = n.to_string(alloc)?;
    out.extend_from_slice(digits.as_bytes())
}

// A text that needs no escape, by one copy.
fn write_plain(out: &mut Vec<u8>, text: &str) -> Result<(), AllocError>
    requires { list_any has_escape text.now ≡ false }
    ensures ok { OnOk result (out.new.items ≡ out.old.items ++ quoted text.now) }
    ensures err { OnErr result (out.new.items ≡ out.old.items) }
{
    out.reserve(text.len().saturating_add(2))?;
    out.push(b'"')?;
    out.extend_from_slice(text.as_bytes())?;
    out.push(b'"')?;
    Ok(())
}

// Any text.
fn write_escaped(alloc: Global, out: &mut Vec<u8>, text: &str) -> Result<(), AllocError>
    ensures ok { OnOk result (out.new.items ≡ out.old.items ++ quoted text.now) }
    ensures err { OnErr result (out.new.items ≡ out.old.items) }
{
    let value = Value::String(String::from_str(alloc, text)?);
    let bytes = value.to_vec(alloc)?;
    out.extend_from_slice(&bytes)
}
