// Which texts have bytes that are written with an escape.
ghost use Rattle.std.specs.Prelude.{◌≡◌};
ghost use Rattle.std.specs.List.{list_any};
ghost use Rattle.arti_json.specs.Escapes.{has_escape};

/// Whether some byte of a text has an escape.
pub fn needs_escape(bytes: &[u8]) -> bool
    ensures { result ≡ list_any has_escape bytes.now }
{
    bytes.iter().any(|b| *b < 32 || *b == b'"' || *b == b'\\')
}
