//! What is written in a query, as the value of a field.
ghost use Rattle.std.specs.Prelude.{◌≡◌, ◌≢◌, ◌≤◌, ◌<◌, ◌^◌, ℕ, length, slice_index, true, Ok, Err, IfOk, IfErr, option_map};
ghost use Rattle.std.specs.Char.{is_ascii_digit};
ghost use Rattle.std.specs.List.{list_all};
ghost use Rattle.arti_aql_parse.specs.Words.{digits_value};
ghost use Rattle.arti_aql_parse.specs.declared.query.Lit.TheVariants as lit;
ghost use Rattle.arti_time.specs.Spans.{span_of};
ghost use Rattle.arti_query_model.specs.declared.tests.TypedLit.TheVariants as typed;
ghost use Rattle.arti_query_model.specs.declared.fault.TypeFault.TheVariants.{Memory};
ghost use Rattle.arti_query_model.specs.Typing as typing;
ghost use Rattle.arti_query_model.specs.Values as model;
ghost use Rattle.arti_query_model.specs.Values.{test_of, moment_before};

use crate::faults::{bad_value, wrong_operator};
use crate::table::{same, takes};
use arti_aql_parse::{Lit, Op, Test};
use arti_query_model::{FieldType, ItemKind, TypeFault, TypedLit, TypedTest};
use arti_rows::{Moment, Text};
use arti_time::{read_date, read_span};
use std::alloc::{AllocError, Global};

// Most digits of a number.
const MOST_DIGITS: usize = 18;

fn are_all_digits(digits: &[u8]) -> bool
    ensures value { result ≡ list_all is_ascii_digit digits.now }
    ensures each { result ≡ true → (i : ℕ) → i < length digits.now → is_ascii_digit (slice_index digits.now i) ≡ true }
{
    for digit in digits {
        if !digit.is_ascii_digit() {
            return false;
        }
    }
    true
}

// 1 to 18 digits; the first is no zero where more follow.
fn are_digits(digits: &[u8]) -> bool
    ensures value { result ≡ model.are_digits digits.now }
    ensures few { result ≡ true → length digits.now ≤ 18 }
    ensures each { result ≡ true → (i : ℕ) → i < length digits.now → is_ascii_digit (slice_index digits.now i) ≡ true }
{
    !digits.is_empty()
        && digits.len() <= MOST_DIGITS
        && are_all_digits(digits)
        && (digits.len() == 1 || digits[0] != b'0')
}

fn digits_value(digits: &[u8]) -> u64
    requires few { length digits.now ≤ 18 }
    requires each { (i : ℕ) → i < length digits.now → is_ascii_digit (slice_index digits.now i) ≡ true }
    ensures value { result ≡ digits_value digits.now }
    ensures small { result < 10 ^ 18 }
{
    let mut value = 0;
    for digit in digits {
        value = value * 10 + u64::from(*digit - b'0');
    }
    value
}

/// The number that a text is: perhaps a minus, and 1 to 18 digits without a leading zero.
#[tactic(auto, unfolding(arti_query_model::specs::Values::number_in, arti_aql_parse::specs::Words::number_of))]
pub fn number_in(text: &str) -> Option<i64>
    ensures { result ≡ model.number_in text.now }
{
    let bytes = text.as_bytes();
    if !bytes.is_empty() && bytes[0] == b'-' {
        let (_, digits) = bytes.split_at(1);
        if are_digits(digits) {
            return Some(-(digits_value(digits) as i64));
        }
    } else if are_digits(bytes) {
        return Some(digits_value(bytes) as i64);
    }
    None
}

/// The kind of an item that has this name.
#[tactic(auto, unfolding(arti_query_model::specs::Values::kind_of))]
pub fn kind_of(name: &str) -> Option<ItemKind>
    ensures { result ≡ model.kind_of name.now }
{
    if same(name, "file") {
        Some(ItemKind::File)
    } else if same(name, "folder") {
        Some(ItemKind::Folder)
    } else if same(name, "any") {
        Some(ItemKind::Any)
    } else {
        None
    }
}

// So many milliseconds before a moment, or the least moment.
fn moment_before(now: Moment, span: u64) -> Moment
    ensures { result ≡ moment_before now span }
{
    now.minus(span)
}

// A comparison with the moment that lies so long before the request.
fn before(op: Op, now: Moment, text: &str) -> Option<TypedTest>
    ensures { result ≡ option_map (λ span. test_of op (typed.Date (moment_before now span))) (span_of text.now) }
{
    match read_span(text) {
        Ok(span) => Some(TypedTest {
            op,
            value: TypedLit::Date(moment_before(now, span)),
        }),
        Err(_) => None,
    }
}

// A date, or the moment that lies so long before the request.
#[tactic(auto, unfolding(arti_query_model::specs::Values::date_test))]
fn date_test(now: Moment, op: Op, text: &str) -> Option<TypedTest>
    ensures { result ≡ model.date_test now op text.now }
{
    match op {
        Op::Before => before(Op::Lt, now, text),
        Op::Last => before(Op::Gte, now, text),
        _ => match read_date(text) {
            Ok(date) => Some(TypedTest {
                op,
                value: TypedLit::Date(date),
            }),
            Err(_) => None,
        },
    }
}

fn number_test(op: Op, text: &str) -> Option<TypedTest>
    ensures { result ≡ option_map (λ n. test_of op (typed.Number n)) (model.number_in text.now) }
{
    match number_in(text) {
        Some(number) => Some(TypedTest {
            op,
            value: TypedLit::Number(number),
        }),
        None => None,
    }
}

fn kind_test(op: Op, text: &str) -> Option<TypedTest>
    ensures { result ≡ option_map (λ k. test_of op (typed.Kind k)) (model.kind_of text.now) }
{
    match kind_of(text) {
        Some(kind) => Some(TypedTest {
            op,
            value: TypedLit::Kind(kind),
        }),
        None => None,
    }
}

fn null_test(op: Op) -> Option<TypedTest>
    ensures { result ≡ model.null_test op }
{
    match op {
        Op::Eq | Op::Ne => Some(TypedTest {
            op,
            value: TypedLit::Null,
        }),
        _ => None,
    }
}

#[tactic(auto, unfolding(arti_query_model::specs::Values::value_test))]
fn words_test(
    now: Moment,
    values: FieldType,
    op: Op,
    text: &Text,
) -> Result<Option<TypedTest>, AllocError>
    ensures { IfOk result (λ t. t ≡ model.value_test now values op (lit.Words text.now)) }
{
    match values {
        FieldType::Texts => Ok(Some(TypedTest {
            op,
            value: TypedLit::Words(text.clone()?),
        })),
        FieldType::Numbers => Ok(number_test(op, text.as_str())),
        FieldType::Dates => Ok(date_test(now, op, text.as_str())),
        FieldType::Kinds => Ok(kind_test(op, text.as_str())),
        FieldType::Lists => Ok(None),
    }
}

// A number literal; of a text it is its decimal digits.
#[tactic(auto, unfolding(arti_query_model::specs::Values::value_test))]
fn literal_test(
    alloc: Global,
    now: Moment,
    values: FieldType,
    op: Op,
    number: i64,
) -> Result<Option<TypedTest>, AllocError>
    ensures { IfOk result (λ t. t ≡ model.value_test now values op (lit.Number number)) }
{
    match values {
        FieldType::Texts => Ok(Some(TypedTest {
            op,
            value: TypedLit::Words(Text::from_string(format!(in alloc; "{number}")?)),
        })),
        FieldType::Numbers => Ok(Some(TypedTest {
            op,
            value: TypedLit::Number(number),
        })),
        _ => Ok(None),
    }
}

/// The test of a field with these values by an operator that it takes, if it may have the value.
#[tactic(auto, unfolding(arti_query_model::specs::Values::value_test))]
pub fn value_test(
    alloc: Global,
    now: Moment,
    values: FieldType,
    op: Op,
    value: &Lit,
) -> Result<Option<TypedTest>, AllocError>
    ensures { IfOk result (λ t. t ≡ model.value_test now values op value.now) }
{
    match value {
        Lit::Null => Ok(null_test(op)),
        Lit::Words(text) => words_test(now, values, op, text),
        Lit::Number(number) => literal_test(alloc, now, values, op, *number),
    }
}

/// The test of the field at a path, which has these values. The operator is judged before the value.
#[tactic(auto, unfolding(arti_query_model::specs::Typing::typed_test))]
pub fn typed_test(
    alloc: Global,
    now: Moment,
    path: &str,
    values: FieldType,
    test: &Test,
) -> Result<TypedTest, TypeFault>
    ensures typed { IfOk result (λ t. typing.typed_test now path.now values test.now ≡ Ok t) }
    ensures refused { IfErr result (λ f. f ≢ Memory → typing.typed_test now path.now values test.now ≡ Err f) }
{
    if !takes(values, test.op) {
        return Err(wrong_operator(alloc, path));
    }
    match value_test(alloc, now, values, test.op, &test.value)? {
        Some(typed) => Ok(typed),
        None => Err(bad_value(alloc, path)),
    }
}
