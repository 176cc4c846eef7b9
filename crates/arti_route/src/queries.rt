// The parameters of a query.
ghost use Rattle.std.specs.Prelude.{◌≡◌, ◌≢◌, Ok, Err, IfOk, IfErr, Some, None, map, option_copied};
ghost use Rattle.std.specs.List.{slice_split};
ghost use Rattle.arti_model.specs.Asks.{needed, needed_by, flag, flag_by, digit, build_text, is_comma};
ghost use Rattle.arti_model.specs.Targets.{each, param};
ghost use Rattle.arti_rows.specs.declared.refusal.Refusal.TheVariants as refusal;

use crate::names::build_text;
use crate::target::{Param, Target, parts};
use arti_rows::{Refusal, Seq, Text};
use std::alloc::{AllocError, Global};

// The value of the first of the parameters of that name, which may have none.
fn param<'a>(params: &'a [Param], name: &str) -> Option<&'a Option<Text>>
    ensures { option_copied result ≡ param params.now name.now }
{
    for param in params {
        if param.0.as_str() == name {
            return Some(&param.1);
        }
    }
    None
}

/// The value of the first parameter of that name, which may have none.
pub fn param_of<'a>(target: &'a Target, name: &str) -> Option<&'a Option<Text>>
    ensures { option_copied result ≡ param target.now.params name.now }
{
    param(target.params.as_slice(), name)
}

fn missing(alloc: Global, name: &str) -> Refusal
    ensures { result ≢ refusal.Memory → result ≡ refusal.Missing name.now }
{
    match Text::from_str(alloc, name) {
        Ok(name) => Refusal::Missing(name),
        Err(_) => Refusal::Memory,
    }
}

/// The refusal of a parameter that is there and malformed.
pub fn bad_query(alloc: Global, name: &str) -> Refusal
    ensures { result ≢ refusal.Memory → result ≡ refusal.BadQuery name.now }
{
    match Text::from_str(alloc, name) {
        Ok(name) => Refusal::BadQuery(name),
        Err(_) => Refusal::Memory,
    }
}

/// A parameter that must be there; one without `=` is empty.
pub fn needed(alloc: Global, target: &Target, name: &str) -> Result<Text, Refusal>
    ensures ok { IfOk result (λ t. needed target.now.params name.now ≡ Ok t) }
    ensures refused { IfErr result (λ why. why ≢ refusal.Memory → needed target.now.params name.now ≡ Err why) }
{
    match param_of(target, name) {
        None => Err(missing(alloc, name)),
        Some(None) => Ok(Text::from_str(alloc, "")?),
        Some(Some(value)) => Ok(value.clone()?),
    }
}

fn digit(text: &str) -> Option<bool>
    ensures { result ≡ digit text.now }
{
    if text == "1" {
        return Some(true);
    }
    if text == "0" {
        return Some(false);
    }
    None
}

/// A parameter that is `0` or `1`, where it is there.
pub fn flag(alloc: Global, target: &Target, name: &str, default: bool) -> Result<bool, Refusal>
    ensures ok { IfOk result (λ b. flag target.now.params name.now default ≡ Ok b) }
    ensures refused { IfErr result (λ why. why ≢ refusal.Memory → flag target.now.params name.now default ≡ Err why) }
{
    match param_of(target, name) {
        None => Ok(default),
        Some(None) => Err(bad_query(alloc, name)),
        Some(Some(value)) => match digit(value.as_str()) {
            Some(flag) => Ok(flag),
            None => Err(bad_query(alloc, name)),
        },
    }
}

/// The numbers of builds, separated by commas.
pub fn build_numbers(alloc: Global, numbers: &str) -> Result<Seq<Text>, Refusal>
    ensures ok { IfOk result (λ s. each build_text (slice_split is_comma numbers.now) ≡ Ok s) }
    ensures refused { IfErr result (λ why. why ≢ refusal.Memory → each build_text (slice_split is_comma numbers.now) ≡ Err why) }
{
    let mut listed = Seq::new(alloc);
    let parts = parts(alloc, numbers, ',')?;
    for number in &parts {
        listed.push(build_text(alloc, number)?)?;
    }
    Ok(listed)
}
