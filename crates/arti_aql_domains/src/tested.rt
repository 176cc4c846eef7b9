//! Values tested.
ghost use Rattle.std.specs.Prelude.{◌≡◌, ◌≤◌, ◌*◌, length, codes};
ghost use Rattle.std.specs.Ordering.{int_cmp};
ghost use Rattle.hex.specs.Hex.{encode_lower};
ghost use Rattle.arti_query_model.specs.Values as value;
ghost use Rattle.arti_query_model.specs.Values.{Absent, Words, Number, Date, Kind, value_meets};
ghost use Rattle.arti_aql_domains.specs.RowValues.{held_view};

use crate::held::Held;
use arti_aql_parse::Op;
use arti_query_model::{ItemKind, TypedLit, TypedTest};
use arti_rows::Moment;
use arti_wild::wild;
use std::cmp::Ordering;

// Whether a test by a comparison holds.
fn order_holds(op: Op, order: Ordering) -> bool
    ensures { result ≡ value.order_holds op order }
{
    match op {
        Op::Eq => order.is_eq(),
        Op::Ne => order.is_ne(),
        Op::Gt => order.is_gt(),
        Op::Gte => order.is_ge(),
        Op::Lt => order.is_lt(),
        Op::Lte => order.is_le(),
        Op::Match | Op::Nmatch | Op::Before | Op::Last => false,
    }
}

// A test with `null`: is there none?
pub fn null_holds(op: Op, none: bool) -> bool
    ensures { result ≡ value.null_holds op none }
{
    match op {
        Op::Eq => none,
        Op::Ne => !none,
        _ => false,
    }
}

// The operators that deny something of a value, which hold where there is none.
pub fn is_denial(op: Op) -> bool
    ensures { result ≡ value.is_denial op }
{
    matches!(op, Op::Ne | Op::Nmatch)
}

fn words_hold(op: Op, words: &str, text: &str) -> bool
    ensures { result ≡ value.words_hold op words.now text.now }
{
    match op {
        Op::Match => wild(text, words),
        Op::Nmatch => !wild(text, words),
        _ => order_holds(op, words.cmp(text)),
    }
}

#[tactic(auto, unfolding(arti_query_model::specs::Values::value_meets))]
pub fn words_meet(words: &str, test: &TypedTest) -> bool
    ensures { result ≡ value_meets (Words words.now) test.now.op test.now.value }
{
    match &test.value {
        TypedLit::Words(text) => words_hold(test.op, words, text.as_str()),
        TypedLit::Null => null_holds(test.op, false),
        TypedLit::Number(_) | TypedLit::Date(_) | TypedLit::Kind(_) => false,
    }
}

#[tactic(auto, unfolding(arti_query_model::specs::Values::value_meets))]
fn number_meets(number: i128, test: &TypedTest) -> bool
    ensures { result ≡ value_meets (Number number) test.now.op test.now.value }
{
    match &test.value {
        TypedLit::Number(other) => order_holds(test.op, number.cmp(&i128::from(*other))),
        TypedLit::Null => null_holds(test.op, false),
        TypedLit::Words(_) | TypedLit::Date(_) | TypedLit::Kind(_) => false,
    }
}

#[tactic(auto, unfolding(arti_query_model::specs::Values::value_meets))]
fn date_meets(date: Moment, test: &TypedTest) -> bool
    ensures { result ≡ value_meets (Date date) test.now.op test.now.value }
{
    match &test.value {
        TypedLit::Date(other) => order_holds(test.op, date.ms().cmp(&other.ms())),
        TypedLit::Null => null_holds(test.op, false),
        TypedLit::Words(_) | TypedLit::Number(_) | TypedLit::Kind(_) => false,
    }
}

// Any kind is `any`.
fn is_of_kind(kind: ItemKind, other: ItemKind) -> bool
    ensures { result ≡ value.is_of_kind kind other }
{
    match other {
        ItemKind::Any => true,
        ItemKind::File => matches!(kind, ItemKind::File),
        ItemKind::Folder => matches!(kind, ItemKind::Folder),
    }
}

fn kind_holds(op: Op, same: bool) -> bool
    ensures { result ≡ value.kind_holds op same }
{
    match op {
        Op::Eq => same,
        Op::Ne => !same,
        _ => false,
    }
}

#[tactic(auto, unfolding(arti_query_model::specs::Values::value_meets))]
fn kind_meets(kind: ItemKind, test: &TypedTest) -> bool
    ensures { result ≡ value_meets (Kind kind) test.now.op test.now.value }
{
    match &test.value {
        TypedLit::Kind(other) => kind_holds(test.op, is_of_kind(kind, *other)),
        TypedLit::Null => null_holds(test.op, false),
        TypedLit::Words(_) | TypedLit::Number(_) | TypedLit::Date(_) => false,
    }
}

#[tactic(auto, unfolding(arti_query_model::specs::Values::value_meets))]
fn none_meets(test: &TypedTest) -> bool
    ensures { result ≡ value_meets Absent test.now.op test.now.value }
{
    match &test.value {
        TypedLit::Null => null_holds(test.op, true),
        TypedLit::Words(_) | TypedLit::Number(_) | TypedLit::Date(_) | TypedLit::Kind(_) => {
            is_denial(test.op)
        }
    }
}

// The digits of at most 32 bytes.
fn digest_meets(digest: &[u8], test: &TypedTest) -> bool
    requires { length digest.now ≤ 32 }
    ensures { result ≡ value_meets (Words (encode_lower digest.now)) test.now.op test.now.value }
{
    let mut room = [0u8; 64];
    let (digits, _) = room.split_at_mut(2 * digest.len());
    if hex::encode_to_slice(digest, digits).is_err() {
        return false;
    }
    match str::from_utf8(digits) {
        Ok(words) => words_meet(words, test),
        Err(_) => false,
    }
}

fn md5_meets(digest: &[u8; 16], test: &TypedTest) -> bool
    ensures { result ≡ value_meets (Words (encode_lower digest.now)) test.now.op test.now.value }
{
    digest_meets(digest.as_slice(), test)
}

fn sha1_meets(digest: &[u8; 20], test: &TypedTest) -> bool
    ensures { result ≡ value_meets (Words (encode_lower digest.now)) test.now.op test.now.value }
{
    digest_meets(digest.as_slice(), test)
}

fn sha256_meets(digest: &[u8; 32], test: &TypedTest) -> bool
    ensures { result ≡ value_meets (Words (encode_lower digest.now)) test.now.op test.now.value }
{
    digest_meets(digest.as_slice(), test)
}

/// Whether a value meets a test.
pub fn meets(held: &Held<'_>, test: &TypedTest) -> bool
    ensures { result ≡ value_meets (held_view held.now) test.now.op test.now.value }
{
    match held {
        Held::Absent => none_meets(test),
        Held::Words(words) => words_meet(words, test),
        Held::Md5(digest) => md5_meets(digest, test),
        Held::Sha1(digest) => sha1_meets(digest, test),
        Held::Sha256(digest) => sha256_meets(digest, test),
        Held::Number(number) => number_meets(*number, test),
        Held::Date(date) => date_meets(*date, test),
        Held::File => kind_meets(ItemKind::File, test),
        Held::Folder => kind_meets(ItemKind::Folder, test),
    }
}
