//! Texts, numbers and tests in the printed form.
ghost use Rattle.std.specs.Prelude.{◌≡◌, ◌++◌, ◌∷◌, [], length, map, decimal, if◌then◌else◌, ◌==◌, OnOk, string_bytes};
ghost use Rattle.std.specs.Fmt.{signed_decimal};
ghost use Rattle.json.specs.Print.{quoted};
ghost use Rattle.arti_aql_parse.specs.Print.{comma_before, group_name, op_name, is_equality, literal_text, test_text, tests_text, operand_text, row, texts_text};

use crate::query::{Lit, Op, Test};
use crate::words::Group;
use arti_json::push_text;
use arti_rows::Text;
use std::alloc::{AllocError, Global};

/// Appends a number in decimal digits.
pub fn push_number(alloc: Global, out: &mut String, n: u64) -> Result<(), AllocError>
    ensures { OnOk result (string_bytes out.new ≡ string_bytes out.old ++ decimal n) }
{
    let digits = n.to_string(alloc)?;
    out.push_str(&digits)
}

fn push_signed(alloc: Global, out: &mut String, n: i64) -> Result<(), AllocError>
    ensures { OnOk result (string_bytes out.new ≡ string_bytes out.old ++ signed_decimal n) }
{
    let digits = n.to_string(alloc)?;
    out.push_str(&digits)
}

/// Appends the comma before a part with this many parts before it.
pub fn push_comma(out: &mut String, i: usize) -> Result<(), AllocError>
    ensures { OnOk result (string_bytes out.new ≡ string_bytes out.old ++ comma_before i) }
{
    if i > 0 { out.push_str(",") } else { Ok(()) }
}

/// Appends texts with commas between them.
pub fn push_texts(alloc: Global, out: &mut String, texts: &[Text]) -> Result<(), AllocError>
    ensures { OnOk result (string_bytes out.new ≡ string_bytes out.old ++ texts_text texts.now) }
{
    for i in 0..texts.len() {
        push_comma(out, i)?;
        push_text(alloc, out, texts[i].as_str())?;
    }
    Ok(())
}

#[tactic(auto, unfolding(crate::specs::Print::group_name))]
pub fn group_name(group: Group) -> &'static str
    ensures { result.now ≡ group_name group }
{
    match group {
        Group::All => "$and",
        Group::Any => "$or",
        Group::Same => "$msp",
    }
}

#[tactic(auto, unfolding(crate::specs::Print::op_name))]
fn op_name(op: Op) -> &'static str
    ensures { result.now ≡ op_name op }
{
    match op {
        Op::Eq => "$eq",
        Op::Ne => "$ne",
        Op::Gt => "$gt",
        Op::Gte => "$gte",
        Op::Lt => "$lt",
        Op::Lte => "$lte",
        Op::Match => "$match",
        Op::Nmatch => "$nmatch",
        Op::Before => "$before",
        Op::Last => "$last",
    }
}

#[tactic(auto, unfolding(crate::specs::Print::literal_text))]
fn push_literal(alloc: Global, out: &mut String, literal: &Lit) -> Result<(), AllocError>
    ensures { OnOk result (string_bytes out.new ≡ string_bytes out.old ++ literal_text literal.now) }
{
    match literal {
        Lit::Words(text) => push_text(alloc, out, text.as_str()),
        Lit::Number(n) => push_signed(alloc, out, *n),
        Lit::Null => out.push_str("null"),
    }
}

#[tactic(auto, unfolding(crate::specs::Print::test_text))]
fn push_test(alloc: Global, out: &mut String, test: &Test) -> Result<(), AllocError>
    ensures { OnOk result (string_bytes out.new ≡ string_bytes out.old ++ test_text test.now) }
{
    push_text(alloc, out, op_name(test.op))?;
    out.push_str(":")?;
    push_literal(alloc, out, &test.value)
}

// The tests of a field, with commas between them.
fn push_test_row(alloc: Global, out: &mut String, tests: &[Test]) -> Result<(), AllocError>
    ensures { OnOk result (string_bytes out.new ≡ string_bytes out.old ++ row (map test_text tests.now)) }
{
    for i in 0..tests.len() {
        push_comma(out, i)?;
        push_test(alloc, out, &tests[i])?;
    }
    Ok(())
}

#[tactic(auto, unfolding(crate::specs::Print::tests_text))]
fn push_tests(alloc: Global, out: &mut String, tests: &[Test]) -> Result<(), AllocError>
    ensures { OnOk result (string_bytes out.new ≡ string_bytes out.old ++ tests_text tests.now) }
{
    out.push_str("{")?;
    push_test_row(alloc, out, tests)?;
    out.push_str("}")
}

fn is_equality(op: Op) -> bool
    ensures { result ≡ is_equality op }
{
    match op {
        Op::Eq => true,
        _ => false,
    }
}

/// Appends what a field is tested against.
#[tactic(auto, unfolding(crate::specs::Print::operand_text))]
pub fn push_operand(alloc: Global, out: &mut String, tests: &[Test]) -> Result<(), AllocError>
    ensures { OnOk result (string_bytes out.new ≡ string_bytes out.old ++ operand_text tests.now) }
{
    if tests.len() == 1 && is_equality(tests[0].op) {
        return push_literal(alloc, out, &tests[0].value);
    }
    push_tests(alloc, out, tests)
}
