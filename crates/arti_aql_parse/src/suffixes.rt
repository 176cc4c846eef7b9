//! What follows the closing parenthesis of a query.
ghost use Rattle.std.specs.Prelude.{◌≡◌, ◌≢◌, IfOk, IfErr};
ghost use Rattle.arti_aql_parse.specs.Ahead.{to_come};
ghost use Rattle.arti_aql_parse.specs.declared.fault.ReadFault.TheVariants.{Memory};
ghost use Rattle.arti_aql_parse.specs.Grammar.{ReadsOrder, ReadsSort, ReadsNatural, ReadsTruth, ReadsName, ReadsSuffix, ReadsSuffixes, is_fresh, no_suffixes};
ghost use Rattle.arti_aql_parse.specs.Refusal.{RefusesOrder, RefusesSort, RefusesNatural, RefusesTruth, RefusesName, RefusesSuffix, RefusesSuffixes};

use crate::elements::texts;
use crate::fault::ReadFault;
use crate::numbers::natural_of;
use crate::parser::Parser;
use crate::query::{Sort, Suffixes};
use crate::words::{Suffix, order_of, suffix_of, truth_of};
use arti_aql_lex::TokenKind;
use arti_rows::{Seq, What};
use std::alloc::Global;

// Reads the order of a sort, up to the bracket of its fields.
#[tactic(auto, using(crate::specs::Refusal::no_brace, crate::specs::Refusal::no_order, crate::specs::Refusal::bad_order, crate::specs::Refusal::no_order_colon, crate::specs::Refusal::no_bracket))]
fn order(alloc: Global, parser: &mut Parser<'_>) -> Result<bool, ReadFault>
    ensures read { IfOk result (λ x. ReadsOrder (to_come parser.old) x (to_come parser.new)) }
    ensures refused { IfErr result (λ f. f ≢ Memory → RefusesOrder (to_come parser.old) f) }
{
    parser.take(TokenKind::ObjectOpen, What::Object)?;
    if !parser.is_at(TokenKind::Words) {
        return Err(parser.refusal(What::SortOrder));
    }
    let word = parser.text(alloc)?;
    let Some(descending) = order_of(word.as_str()) else {
        return Err(parser.refusal(What::SortOrder));
    };
    parser.pass();
    parser.take(TokenKind::Colon, What::Colon)?;
    parser.take(TokenKind::ListOpen, What::List)?;
    Ok(descending)
}

// Reads the argument of a sort and the closing parenthesis.
#[tactic(auto, using(crate::specs::Refusal::not_an_order, crate::specs::Refusal::in_fields, crate::specs::Refusal::no_end_brace, crate::specs::Refusal::no_sort_end))]
fn sort(alloc: Global, parser: &mut Parser<'_>) -> Result<Sort, ReadFault>
    ensures read { IfOk result (λ x. ReadsSort (to_come parser.old) x (to_come parser.new)) }
    ensures refused { IfErr result (λ f. f ≢ Memory → RefusesSort (to_come parser.old) f) }
{
    let descending = order(alloc, parser)?;
    let fields = texts(alloc, parser, TokenKind::ListClose)?;
    parser.take(TokenKind::ObjectClose, What::CommaOrClose)?;
    parser.take(TokenKind::Close, What::CommaOrClose)?;
    Ok(Sort {
        descending,
        fields: Seq::from_vec(fields),
    })
}

// Reads a number that isn't negative and the closing parenthesis.
#[tactic(auto, using(crate::specs::Refusal::no_number, crate::specs::Refusal::negative, crate::specs::Refusal::no_number_end))]
fn natural(alloc: Global, parser: &mut Parser<'_>) -> Result<u64, ReadFault>
    ensures read { IfOk result (λ x. ReadsNatural (to_come parser.old) x (to_come parser.new)) }
    ensures refused { IfErr result (λ f. f ≢ Memory → RefusesNatural (to_come parser.old) f) }
{
    if !parser.is_at(TokenKind::Number) {
        return Err(parser.refusal(What::Number));
    }
    let digits = parser.text(alloc)?;
    let Some(number) = natural_of(digits.as_str()) else {
        return Err(parser.refusal(What::Number));
    };
    parser.pass();
    parser.take(TokenKind::Close, What::CommaOrClose)?;
    Ok(number)
}

// Reads `true` or `false` and the closing parenthesis.
#[tactic(auto, using(crate::specs::Refusal::no_truth, crate::specs::Refusal::other_name, crate::specs::Refusal::no_truth_end))]
fn truth(alloc: Global, parser: &mut Parser<'_>) -> Result<bool, ReadFault>
    ensures read { IfOk result (λ x. ReadsTruth (to_come parser.old) x (to_come parser.new)) }
    ensures refused { IfErr result (λ f. f ≢ Memory → RefusesTruth (to_come parser.old) f) }
{
    if !parser.is_at(TokenKind::Name) {
        return Err(parser.refusal(What::Truth));
    }
    let name = parser.text(alloc)?;
    let Some(value) = truth_of(name.as_str()) else {
        return Err(parser.refusal(What::Truth));
    };
    parser.pass();
    parser.take(TokenKind::Close, What::CommaOrClose)?;
    Ok(value)
}

// Whether a suffix was not given before.
fn is_fresh(given: &Suffixes, suffix: Suffix) -> bool
    ensures { result ≡ is_fresh given.now suffix }
{
    match suffix {
        Suffix::Include => given.include.is_none(),
        Suffix::Sort => given.sort.is_none(),
        Suffix::Offset => given.offset.is_none(),
        Suffix::Limit => given.limit.is_none(),
        Suffix::Distinct => given.distinct.is_none(),
    }
}

// Reads the name of a suffix that was not given before, and the opening parenthesis.
#[tactic(auto, using(crate::specs::Refusal::no_suffix, crate::specs::Refusal::no_such_suffix, crate::specs::Refusal::given_before, crate::specs::Refusal::no_open))]
fn name(alloc: Global, parser: &mut Parser<'_>, given: &Suffixes) -> Result<Suffix, ReadFault>
    ensures read { IfOk result (λ x. ReadsName given.now (to_come parser.old) x (to_come parser.new)) }
    ensures refused { IfErr result (λ f. f ≢ Memory → RefusesName given.now (to_come parser.old) f) }
{
    if !parser.is_at(TokenKind::Name) {
        return Err(parser.refusal(What::Suffix));
    }
    let name = parser.text(alloc)?;
    let Some(suffix) = suffix_of(name.as_str()) else {
        return Err(parser.refusal(What::Suffix));
    };
    if !is_fresh(given, suffix) {
        return Err(parser.refusal(What::Suffix));
    }
    parser.pass();
    parser.take(TokenKind::Open, What::Open)?;
    Ok(suffix)
}

// Reads a suffix, behind its dot, beside those that were given before.
#[tactic(auto, using(crate::specs::Grammar::include, crate::specs::Grammar::sort, crate::specs::Grammar::offset, crate::specs::Grammar::limit, crate::specs::Grammar::distinct, crate::specs::Refusal::not_a_name, crate::specs::Refusal::in_include, crate::specs::Refusal::in_sort, crate::specs::Refusal::in_offset, crate::specs::Refusal::in_limit, crate::specs::Refusal::in_distinct))]
fn suffix(alloc: Global, parser: &mut Parser<'_>, given: Suffixes) -> Result<Suffixes, ReadFault>
    ensures read { IfOk result (λ x. ReadsSuffix given (to_come parser.old) x (to_come parser.new)) }
    ensures refused { IfErr result (λ f. f ≢ Memory → RefusesSuffix given (to_come parser.old) f) }
{
    let mut all = given;
    match name(alloc, parser, &all)? {
        Suffix::Include => {
            let texts = texts(alloc, parser, TokenKind::Close)?;
            all.include = Some(Seq::from_vec(texts));
        }
        Suffix::Sort => all.sort = Some(sort(alloc, parser)?),
        Suffix::Offset => all.offset = Some(natural(alloc, parser)?),
        Suffix::Limit => all.limit = Some(natural(alloc, parser)?),
        Suffix::Distinct => all.distinct = Some(truth(alloc, parser)?),
    }
    Ok(all)
}

/// Reads the suffixes up to the end of the text, each once.
pub fn suffixes(alloc: Global, parser: &mut Parser<'_>) -> Result<Suffixes, ReadFault>
    ensures read { IfOk result (λ x. ReadsSuffixes no_suffixes (to_come parser.old) x) }
    ensures refused { IfErr result (λ f. f ≢ Memory → RefusesSuffixes no_suffixes (to_come parser.old) f) }
{
    let mut given = Suffixes {
        include: None,
        sort: None,
        offset: None,
        limit: None,
        distinct: None,
    };
    'row: loop {
        if parser.is_at(TokenKind::End) {
            return Ok(given);
        }
        parser.take(TokenKind::Dot, What::Suffix)?;
        given = suffix(alloc, parser, given)?;
    }
}
