// The words of a command line.
ghost use Rattle.std.specs.Prelude.{◌≡◌, IsTrue, map, string_bytes};
ghost use Rattle.std.specs.List.{list_all};
ghost use Rattle.std.specs.Char.{is_ascii_digit};
ghost use Rattle.std.specs.Str.Parse.{digits_value};
ghost use Rattle.arti_main.specs.Words.{has_leading_zero, is_number, start_of, command_of};

/// The greatest first moment of a replay, in milliseconds since 1970.
pub const GREATEST_START: u64 = 253_402_200_000_000;

/// A command of the program.
#[derive(Clone, Copy, Debug, PartialEq, Eq)]
pub enum Command {
    /// Answers the requests of the input. Request k, from 0, has the moment that many milliseconds behind the given one.
    Replay(u64),
}

// Whether more stands behind a first digit 0.
fn has_leading_zero(text: &[u8]) -> bool
    ensures { result ≡ has_leading_zero text.now }
{
    match text {
        [first, rest @ ..] => *first == b'0' && !rest.is_empty(),
        [] => false,
    }
}

// Whether each byte is a decimal digit.
fn all_digits(text: &[u8]) -> bool
    ensures { result ≡ list_all is_ascii_digit text.now }
{
    text.iter().all(|b| b.is_ascii_digit())
}

// Whether the text is a number without sign or leading zeros.
fn is_number(text: &[u8]) -> bool
    ensures { result ≡ is_number text.now }
{
    if text.is_empty() {
        return false;
    }
    all_digits(text) && !has_leading_zero(text)
}

// The number of a text, where it is one and isn't too great for a start.
fn start_of(text: &str) -> Option<u64>
    ensures { result ≡ start_of text.now }
{
    if !is_number(text.as_bytes()) {
        return None;
    }
    let Ok(number) = text.parse::<u64>() else {
        return None;
    };
    if number > GREATEST_START {
        return None;
    }
    Some(number)
}

/// The command that the words are, if they are one.
pub fn command_of(words: &[String]) -> Option<Command>
    ensures { result ≡ command_of (map string_bytes words.now) }
{
    match words {
        [name, flag, start] => {
            if name.as_str() != "replay" || flag.as_str() != "--start" {
                return None;
            }
            match start_of(start.as_str()) {
                Some(start) => Some(Command::Replay(start)),
                None => None,
            }
        }
        _ => None,
    }
}
