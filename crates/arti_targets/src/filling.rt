// The target of a file.
ghost use Rattle.std.specs.Prelude.{◌≡◌, ◌≤◌, ◌^◌, ◌<◌, ◌++◌, List, length, All, IfOk, OnOk, IfSome, None, string_bytes, option_map, false};
ghost use Rattle.std.specs.Option.{option_copied};
ghost use Rattle.std.specs.List.{list_any};
ghost use Rattle.arti_rows.specs.Key.{whole_of};
ghost use Rattle.arti_wild.specs.declared.part.Part.{Part};
ghost use Rattle.arti_targets.specs.Targets.{AreCaptured, IsCut, part_text, filled, is_file_name, named_by, target_text, wrong_part, within};
ghost use Rattle.arti_targets.specs.declared.part.TargetPart.TheVariants.{Group};
ghost use Rattle.arti_targets.specs.Targets as spec;

use crate::part::TargetPart;
use crate::target::Target;
use arti_rows::{ItemKey, Text};
use arti_wild::Span;
use std::alloc::{AllocError, Global};

// What the placeholder of that number stands for.
fn captured<'a>(text: &'a str, spans: &[Span], number: u32) -> &'a str
    requires { All (IsCut text.now) spans.now }
    ensures { result.now ≡ part_text text.now spans.now (Group number) }
{
    let place = if number > 0 { number - 1 } else { 0 };
    match spans.get(place as usize) {
        None => "",
        Some(span) => &text[span.start as usize..span.end as usize],
    }
}

fn push_part(
    out: &mut String,
    text: &str,
    spans: &[Span],
    part: TargetPart,
) -> Result<(), AllocError>
    requires { All (IsCut text.now) spans.now }
    ensures { OnOk result (string_bytes out.new ≡ string_bytes out.old ++ part_text text.now spans.now part) }
{
    match part {
        TargetPart::Char(c) => out.push(c),
        TargetPart::Group(number) => out.push_str(captured(text, spans, number)),
    }
}

// The parts with their placeholders replaced.
fn fill(
    alloc: Global,
    parts: &[TargetPart],
    text: &str,
    spans: &[Span],
) -> Result<String, AllocError>
    requires { All (IsCut text.now) spans.now }
    ensures { IfOk result (λ s. string_bytes s ≡ filled text.now spans.now parts.now) }
{
    let mut out = String::new(alloc);
    'parts: for part in parts {
        push_part(&mut out, text, spans, *part)?;
    }
    Ok(out)
}

fn has_group(parts: &[TargetPart]) -> bool
    ensures { result ≡ list_any spec.is_group parts.now }
{
    parts.iter().any(|part| is_group(*part))
}

fn is_group(part: TargetPart) -> bool
    ensures { result ≡ spec.is_group part }
{
    match part {
        TargetPart::Char(_) => false,
        TargetPart::Group(_) => true,
    }
}

fn is_file_name(text: &str) -> bool
    ensures { result ≡ is_file_name text.now }
{
    !text.is_empty() && !text.ends_with('/')
}

// Appends the name, and the path before it where it is wanted.
fn append(alloc: Global, out: &mut String, flat: bool, key: &ItemKey) -> Result<(), AllocError>
    ensures { OnOk result (string_bytes out.new ≡ string_bytes out.old ++ spec.appended flat key.now) }
{
    if flat {
        return out.push_str(key.name.as_str());
    }
    let whole = key.whole(alloc)?;
    out.push_str(whole.as_str())
}

fn named_by(
    alloc: Global,
    target: &Target,
    flat: bool,
    key: &ItemKey,
    text: &str,
    spans: &[Span],
) -> Result<String, AllocError>
    requires { All (IsCut text.now) spans.now }
    ensures { IfOk result (λ s. string_bytes s ≡ target_text (Some target.now) flat key.now text.now spans.now) }
{
    let mut out = fill(alloc, target.parts(), text, spans)?;
    if is_file_name(&out) {
        return Ok(out);
    }
    append(alloc, &mut out, flat || has_group(target.parts()), key)?;
    Ok(out)
}

/// The target of a file: the target of its entry with the placeholders replaced by what they stand for in `text`, and the file's name appended where
/// that is empty or ends in a slash, with its path before it unless `flat` is true or the target has placeholders. Without a target it is path
/// and name, or the name alone where `flat` is true.
pub fn target_of(
    alloc: Global,
    target: Option<&Target>,
    flat: bool,
    key: &ItemKey,
    text: &str,
    spans: &[Span],
) -> Result<Text, AllocError>
    requires captures { AreCaptured text.now spans.now }
    requires numbers { IfSome target (λ t. wrong_part (length spans.now) t.now ≡ None) }
    ensures { IfOk result (λ t. t ≡ target_text (option_map (λ t. t.now) target.entry) flat key.now text.now spans.now) }
{
    match target {
        None => {
            let mut out = String::new(alloc);
            append(alloc, &mut out, flat, key)?;
            Ok(Text::from_string(out))
        }
        Some(target) => {
            let out = named_by(alloc, target, flat, key, text, spans)?;
            Ok(Text::from_string(out))
        }
    }
}
