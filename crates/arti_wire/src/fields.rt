// What the fields of a head say of its body and of the stream.
ghost use Rattle.std.specs.Prelude.{◌≡◌, ℕ, ◌<◌, ◌≤◌, List, IsTrue, Some, None, IfOk, IfErr, codes, reverse};
ghost use Rattle.std.specs.List.{list_any, list_all};
ghost use Rattle.std.specs.Option.{option_copied};
ghost use Rattle.std.specs.Str.{bytes_eq, str_eq_ignore_ascii_case};
ghost use Rattle.std.specs.Char.{is_ascii_digit};
ghost use Rattle.std.specs.Str.Parse.{digits_value};
ghost use Rattle.httparse.specs.Grammar.{skip_ows, trim_ows};
ghost use Rattle.arti_model.specs.Requests.{values_of, is_length, is_one_length, has_some, body_length, body_fault, tokens, has_close};
ghost use Rattle.arti_wire.specs.Fields.{texts_of, first_value};

use arti_model::Why;
use arti_rows::Text;

/// A field of a head: its name as it was sent, and its value without the white space round it.
pub type Field = (Text, Vec<u8>);

const CONTENT_LENGTH: &str = "Content-Length";

const TRANSFER_ENCODING: &str = "Transfer-Encoding";

const CONNECTION: &str = "Connection";

// Whether the field has that name, compared without ASCII case.
fn is_named(field: &Field, name: &str) -> bool
    ensures { result ≡ str_eq_ignore_ascii_case field.now.0 name.now }
{
    field.0.as_str().eq_ignore_ascii_case(name)
}

// The value of the first field of that name.
fn first_of<'a>(fields: &'a [Field], name: &str) -> Option<&'a [u8]>
    ensures { option_copied result ≡ first_value (values_of name.now (texts_of fields.now)) }
{
    for field in fields {
        if is_named(field, name) {
            return Some(field.1.as_slice());
        }
    }
    None
}

// Whether each field of that name has that value.
fn all_are(fields: &[Field], name: &str, value: &[u8]) -> bool
    ensures { result ≡ list_all (λ other. bytes_eq other value.now) (values_of name.now (texts_of fields.now)) }
{
    for field in fields {
        if is_named(field, name) && field.1.as_slice() != value {
            return false;
        }
    }
    true
}

// Whether each byte is a decimal digit.
fn all_digits(value: &[u8]) -> bool
    ensures { result ≡ list_all is_ascii_digit value.now }
{
    value.iter().all(|b| b.is_ascii_digit())
}

// Whether the bytes are 1 to 18 decimal digits.
fn is_number(value: &[u8]) -> bool
    ensures { result ≡ is_length value.now }
{
    if value.is_empty() || value.len() > 18 {
        return false;
    }
    all_digits(value)
}

// The number that the digits write.
fn number(digits: &[u8]) -> u64
    requires { IsTrue (is_length digits.now) }
    ensures { result ≡ digits_value 10 digits.now }
{
    let mut n = 0;
    for b in digits {
        n = n * 10 + u64::from(*b - b'0');
    }
    n
}

// The bytes without the spaces and tabs before them.
fn trim_start(bytes: &[u8]) -> &[u8]
    ensures { result.now ≡ skip_ows bytes.now }
{
    let mut rest = bytes;
    while let [b' ' | b'\t', more @ ..] = rest {
        rest = more;
    }
    rest
}

// The bytes without the spaces and tabs behind them.
fn trim_end(bytes: &[u8]) -> &[u8]
    ensures { result.now ≡ reverse (skip_ows (reverse bytes.now)) }
{
    let mut rest = bytes;
    while let [more @ .., b' ' | b'\t'] = rest {
        rest = more;
    }
    rest
}

// The bytes without the spaces and tabs round them.
#[tactic(auto, unfolding(httparse::specs::Grammar::trim_ows))]
fn trim(bytes: &[u8]) -> &[u8]
    ensures { result.now ≡ trim_ows bytes.now }
{
    trim_end(trim_start(bytes))
}

// Whether the token is `close`, without ASCII case.
fn is_close(token: &[u8]) -> bool
    ensures { result ≡ str_eq_ignore_ascii_case (trim_ows token.now) (codes "close") }
{
    trim(token).eq_ignore_ascii_case(b"close")
}

// Whether a list with commas has the token `close`.
fn lists_close(value: &[u8]) -> bool
    ensures { result ≡ list_any (λ token. str_eq_ignore_ascii_case token (codes "close")) (tokens value.now) }
{
    value.split(|b| *b == b',').any(|token| is_close(token))
}

/// Whether the request is the last of its stream (RFC 9112, section 9.6).
pub fn asks_close(fields: &[Field]) -> bool
    ensures { result ≡ has_close (texts_of fields.now) }
{
    for field in fields {
        if is_named(field, CONNECTION) && lists_close(field.1.as_slice()) {
            return true;
        }
    }
    false
}

// Whether the fields give one length, or none.
fn has_one_length(fields: &[Field]) -> bool
    ensures { result ≡ is_one_length (values_of (codes "Content-Length") (texts_of fields.now)) }
{
    match first_of(fields, CONTENT_LENGTH) {
        Some(value) => is_number(value) && all_are(fields, CONTENT_LENGTH, value),
        None => true,
    }
}

// Whether some field has that name.
fn has_field(fields: &[Field], name: &str) -> bool
    ensures { result ≡ has_some (values_of name.now (texts_of fields.now)) }
{
    first_of(fields, name).is_some()
}

/// The length of the body, 0 where no field gives one.
pub fn length_of_body(fields: &[Field]) -> u64
    requires { IsTrue (is_one_length (values_of (codes "Content-Length") (texts_of fields.now))) }
    ensures { result ≡ body_length (texts_of fields.now) }
{
    match first_of(fields, CONTENT_LENGTH) {
        Some(value) => number(value),
        None => 0,
    }
}

/// The length of the body, or what is wrong with it.
pub fn body_of(fields: &[Field], content: u64) -> Result<u64, Why>
    ensures length { IfOk result (λ n. (body_fault content (texts_of fields.now) ≡ None) × (n ≡ body_length (texts_of fields.now))) }
    ensures bound { IfOk result (λ n. n ≤ content) }
    ensures fault { IfErr result (λ why. body_fault content (texts_of fields.now) ≡ Some why) }
{
    let is_coded = has_field(fields, TRANSFER_ENCODING);
    if !has_one_length(fields) || (has_field(fields, CONTENT_LENGTH) && is_coded) {
        return Err(Why::BadLength);
    }
    if is_coded {
        return Err(Why::UnknownCoding);
    }
    let length = length_of_body(fields);
    if length > content {
        return Err(Why::BodyTooLarge);
    }
    Ok(length)
}
