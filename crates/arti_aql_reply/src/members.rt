// Members of a JSON object (RFC 8259, section 4).
ghost use Rattle.std.specs.Prelude.{◌≡◌, ◌++◌, ◌∷◌, [], OnOk, decimal};
ghost use Rattle.json.specs.Print.{quoted};
ghost use Rattle.arti_time.specs.Printed.{printed};
ghost use Rattle.arti_model.specs.Query.{member};

use arti_json::{write_number, write_text};
use arti_rows::Moment;
use std::alloc::{AllocError, Global};

// A member's name and the colon behind it.
fn write_name(out: &mut Vec<u8>, name: &str) -> Result<(), AllocError>
    ensures { OnOk result (out.new.items ≡ out.old.items ++ 34 ∷ (name.now ++ 34 ∷ 58 ∷ [])) }
{
    out.push(b'"')?;
    out.extend_from_slice(name.as_bytes())?;
    out.extend_from_slice(b"\":")
}

/// A member with a text.
pub fn write_words(
    alloc: Global,
    out: &mut Vec<u8>,
    name: &str,
    words: &str,
) -> Result<(), AllocError>
    ensures { OnOk result (out.new.items ≡ out.old.items ++ member name.now (quoted words.now)) }
{
    write_name(out, name)?;
    write_text(alloc, out, words)
}

/// A member with a number.
pub fn write_size(alloc: Global, out: &mut Vec<u8>, name: &str, n: u64) -> Result<(), AllocError>
    ensures { OnOk result (out.new.items ≡ out.old.items ++ member name.now (decimal n)) }
{
    write_name(out, name)?;
    write_number(alloc, out, n)
}

/// A member with a moment, as a text.
pub fn write_date(
    alloc: Global,
    out: &mut Vec<u8>,
    name: &str,
    moment: Moment,
) -> Result<(), AllocError>
    ensures { OnOk result (out.new.items ≡ out.old.items ++ member name.now (quoted (printed moment))) }
{
    let text = arti_time::print(alloc, moment)?;
    write_words(alloc, out, name, text.as_str())
}

/// A further member with a text.
pub fn write_next_words(
    alloc: Global,
    out: &mut Vec<u8>,
    name: &str,
    words: &str,
) -> Result<(), AllocError>
    ensures { OnOk result (out.new.items ≡ out.old.items ++ 44 ∷ member name.now (quoted words.now)) }
{
    out.push(b',')?;
    write_words(alloc, out, name, words)
}

/// A further member with a number.
pub fn write_next_size(
    alloc: Global,
    out: &mut Vec<u8>,
    name: &str,
    n: u64,
) -> Result<(), AllocError>
    ensures { OnOk result (out.new.items ≡ out.old.items ++ 44 ∷ member name.now (decimal n)) }
{
    out.push(b',')?;
    write_size(alloc, out, name, n)
}

/// A further member with a moment.
pub fn write_next_date(
    alloc: Global,
    out: &mut Vec<u8>,
    name: &str,
    moment: Moment,
) -> Result<(), AllocError>
    ensures { OnOk result (out.new.items ≡ out.old.items ++ 44 ∷ member name.now (quoted (printed moment))) }
{
    out.push(b',')?;
    write_date(alloc, out, name, moment)
}
