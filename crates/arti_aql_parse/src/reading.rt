//! A whole query.
ghost use Rattle.std.specs.Prelude.{◌≡◌, ◌≢◌, List, ℕ, Some, IfOk, IfErr};
ghost use Rattle.arti_aql_lex.specs.declared.token.TokenKind.TheVariants.{Close};
ghost use Rattle.arti_aql_parse.specs.Ahead.{to_come};
ghost use Rattle.arti_aql_parse.specs.declared.fault.ReadFault.TheVariants.{Memory};
ghost use Rattle.arti_aql_parse.specs.Front.{kind_at};
ghost use Rattle.arti_aql_parse.specs.Tree.{PlainQuery};
ghost use Rattle.arti_aql_parse.specs.View.{view, objects_view};
ghost use Rattle.arti_aql_parse.specs.Grammar.{ReadsHead, ReadsCriteria, ReadsQuery, joined};
ghost use Rattle.arti_aql_parse.specs.Refusal.{RefusesHead, RefusesCriteria, RefusesQuery};
ghost use Rattle.arti_aql_parse.specs.Spelling.{Spells, Answers, FaultOf};

use crate::criteria::objects;
use crate::fault::{ParseFault, ReadFault, fault_of};
use crate::parser::Parser;
use crate::query::{Object, Query};
use crate::suffixes::suffixes;
use crate::words::is_find;
use arti_aql_lex::TokenKind;
use arti_rows::{Seq, Text, What};
use std::alloc::{AllocError, Global};

// Most bytes of a query text.
const MOST_BYTES: usize = 65_536;

/// Most braces and brackets that are open at once.
pub const MOST_LEVELS: u32 = 32;

// Reads the names of a domain, up to the parenthesis behind `find`.
fn head(alloc: Global, parser: &mut Parser<'_>) -> Result<Vec<Text>, ReadFault>
    ensures read { IfOk result (λ xs. ReadsHead (to_come parser.old) xs.items (to_come parser.new)) }
    ensures refused { IfErr result (λ f. f ≢ Memory → RefusesHead (to_come parser.old) f) }
{
    let mut names = Vec::new(alloc);
    'row: loop {
        if !parser.is_at(TokenKind::Name) {
            return Err(parser.refusal(What::Name));
        }
        let name = parser.text(alloc)?;
        parser.pass();
        if !parser.is_at(TokenKind::Dot) {
            if !is_find(name.as_str()) {
                return Err(parser.refusal(What::Dot));
            }
            parser.take(TokenKind::Open, What::Open)?;
            return Ok(names);
        }
        parser.pass();
        names.push(name)?;
    }
}

// The names with dots between them.
fn domain(alloc: Global, names: &[Text]) -> Result<Text, AllocError>
    ensures { IfOk result (λ t. t ≡ joined names.now) }
{
    let mut domain = String::new(alloc);
    for i in 0..names.len() {
        if i > 0 {
            domain.push_str(".")?;
        }
        domain.push_str(names[i].as_str())?;
    }
    Ok(Text::from_string(domain))
}

#[tactic(auto, using(crate::specs::Grammar::no_criteria, crate::specs::Grammar::criteria, crate::specs::Refusal::not_objects))]
// Reads the objects of a query, if any, and the closing parenthesis.
fn criteria(alloc: Global, parser: &mut Parser<'_>) -> Result<Vec<Object>, ReadFault>
    ensures read { IfOk result (λ os. ReadsCriteria (to_come parser.old) (objects_view os.items) (to_come parser.new)) }
    ensures refused { IfErr result (λ f. f ≢ Memory → RefusesCriteria (to_come parser.old) f) }
{
    if parser.is_at(TokenKind::Close) {
        parser.pass();
        return Ok(Vec::new(alloc));
    }
    objects(alloc, parser, MOST_LEVELS, TokenKind::Close)
}

#[tactic(auto, using(crate::specs::Refusal::in_head, crate::specs::Refusal::in_criteria, crate::specs::Refusal::behind_criteria))]
fn query(alloc: Global, parser: &mut Parser<'_>) -> Result<Query, ReadFault>
    ensures read { IfOk result (λ q. ReadsQuery (to_come parser.old) (view q)) }
    ensures refused { IfErr result (λ f. f ≢ Memory → RefusesQuery (to_come parser.old) f) }
{
    let names = head(alloc, parser)?;
    let domain = domain(alloc, names.as_slice())?;
    let find = criteria(alloc, parser)?;
    let rest = suffixes(alloc, parser)?;
    Ok(Query {
        domain,
        find: Seq::from_vec(find),
        include: rest.include,
        sort: rest.sort,
        offset: rest.offset,
        limit: rest.limit,
        distinct: rest.distinct,
    })
}

/// The query that a text spells, or its first refusal. The stack goes no deeper than the levels that a query may have.
pub fn parse(alloc: Global, text: &str) -> Result<Query, ParseFault>
    // What is read is spelled so.
    ensures found { IfOk result (λ q. Spells text.now (view q)) }
    // What is spelled so is read, unless memory runs out.
    ensures only { (q : PlainQuery) → Spells text.now q → Answers q result }
    // Each refusal is the first one, at its place.
    ensures refused { IfErr result (λ f. FaultOf text.now f) }
{
    if text.len() > MOST_BYTES {
        return Err(ParseFault::QueryTooLong);
    }
    let mut parser = Parser::new(text);
    match query(alloc, &mut parser) {
        Ok(query) => Ok(query),
        Err(fault) => Err(fault_of(fault)),
    }
}
