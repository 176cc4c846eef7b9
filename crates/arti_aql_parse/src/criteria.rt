//! Objects, their members and lists of objects.
ghost use Rattle.std.specs.Prelude.{◌≡◌, ◌≢◌, true, false, None, IfOk, IfErr};
ghost use Rattle.arti_aql_lex.specs.Tokens.{is_end};
ghost use Rattle.arti_aql_parse.specs.Ahead.{to_come};
ghost use Rattle.arti_aql_parse.specs.declared.fault.ReadFault.TheVariants.{Memory};
ghost use Rattle.arti_aql_parse.specs.Words.{is_key};
ghost use Rattle.arti_aql_parse.specs.Tree.{group};
ghost use Rattle.arti_aql_parse.specs.View.{object_view, member_view, members_view, objects_view};
ghost use Rattle.arti_aql_parse.specs.Grammar.{ReadsKey, ReadsOperand, ReadsObject, ReadsMember, ReadsMembers, ReadsObjects};
ghost use Rattle.arti_aql_parse.specs.Refusal.{RefusesKey, RefusesOperand, RefusesObject, RefusesMember, RefusesMembers, RefusesObjects};

use crate::elements::{literal, tests};
use crate::fault::ReadFault;
use crate::parser::Parser;
use crate::query::{Member, Object, Op, Test};
use crate::words::{Group, begins_with_dollar, group_of};
use arti_aql_lex::TokenKind;
use arti_rows::{Text, What};
use std::alloc::Global;

// Reads the key of a member and its colon.
#[tactic(auto, using(crate::specs::Refusal::no_key, crate::specs::Refusal::bad_key, crate::specs::Refusal::no_key_colon))]
fn key(alloc: Global, parser: &mut Parser<'_>) -> Result<Text, ReadFault>
    ensures read { IfOk result (λ key. ReadsKey (to_come parser.old) key (to_come parser.new)) }
    ensures fits { IfOk result (λ key. is_key key ≡ true) }
    ensures refused { IfErr result (λ f. f ≢ Memory → RefusesKey (to_come parser.old) f) }
{
    if !parser.is_at(TokenKind::Words) {
        return Err(parser.refusal(What::Key));
    }
    let key = parser.text(alloc)?;
    if group_of(key.as_str()).is_none() && begins_with_dollar(key.as_str()) {
        return Err(parser.refusal(What::Key));
    }
    parser.pass();
    parser.take(TokenKind::Colon, What::Colon)?;
    Ok(key)
}

// Reads what a field is tested against. So many braces and brackets may still be opened.
#[tactic(auto, using(crate::specs::Grammar::equals, crate::specs::Grammar::compares, crate::specs::Refusal::no_operand, crate::specs::Refusal::deep_tests, crate::specs::Refusal::in_tests))]
fn operand(alloc: Global, parser: &mut Parser<'_>, left: u32) -> Result<Vec<Test>, ReadFault>
    ensures read { IfOk result (λ xs. ReadsOperand left (to_come parser.old) xs.items (to_come parser.new)) }
    ensures refused { IfErr result (λ f. f ≢ Memory → RefusesOperand left (to_come parser.old) f) }
{
    if parser.is_at(TokenKind::ObjectOpen) {
        if left == 0 {
            return Err(ReadFault::TooDeep);
        }
        parser.pass();
        return tests(alloc, parser);
    }
    match literal(alloc, parser)? {
        Some(value) => {
            let mut tests = Vec::new(alloc);
            tests.push(Test { op: Op::Eq, value })?;
            Ok(tests)
        }
        None => Err(parser.refusal(What::Operand)),
    }
}

fn joined(join: Group, objects: Vec<Object>) -> Member
    ensures { member_view result ≡ group join (objects_view objects.items) }
{
    match join {
        Group::All => Member::All(objects),
        Group::Any => Member::Any(objects),
        Group::Same => Member::Same(objects),
    }
}

// Reads an object. So many braces and brackets may still be opened.
#[cycle(criteria)]
fn object(alloc: Global, parser: &mut Parser<'_>, left: u32) -> Result<Object, ReadFault>
    ensures read { IfOk result (λ o. ReadsObject left (to_come parser.old) (object_view o) (to_come parser.new)) }
    ensures refused { IfErr result (λ f. f ≢ Memory → RefusesObject left (to_come parser.old) f) }
{
    if !parser.is_at(TokenKind::ObjectOpen) {
        return Err(parser.refusal(What::Object));
    }
    if left == 0 {
        return Err(ReadFault::TooDeep);
    }
    parser.pass();
    if parser.is_at(TokenKind::ObjectClose) {
        parser.pass();
        return Ok(Object {
            members: Vec::new(alloc),
        });
    }
    let members = members(alloc, parser, left - 1)?;
    Ok(Object { members })
}

// Reads the members of an object up to the closing brace.
#[cycle(criteria)]
fn members(alloc: Global, parser: &mut Parser<'_>, left: u32) -> Result<Vec<Member>, ReadFault>
    ensures read { IfOk result (λ ms. ReadsMembers left (to_come parser.old) (members_view ms.items) (to_come parser.new)) }
    ensures refused { IfErr result (λ f. f ≢ Memory → RefusesMembers left (to_come parser.old) f) }
{
    let mut members = Vec::new(alloc);
    'row: loop {
        let x = member(alloc, parser, left)?;
        members.push(x)?;
        if !parser.more(TokenKind::ObjectClose)? {
            return Ok(members);
        }
    }
}

// Reads a member of an object.
#[cycle(criteria)]
fn member(alloc: Global, parser: &mut Parser<'_>, left: u32) -> Result<Member, ReadFault>
    ensures read { IfOk result (λ m. ReadsMember left (to_come parser.old) (member_view m) (to_come parser.new)) }
    ensures refused { IfErr result (λ f. f ≢ Memory → RefusesMember left (to_come parser.old) f) }
{
    let key = key(alloc, parser)?;
    let Some(join) = group_of(key.as_str()) else {
        let tests = operand(alloc, parser, left)?;
        return Ok(Member::Tests(key, tests));
    };
    if !parser.is_at(TokenKind::ListOpen) {
        return Err(parser.refusal(What::List));
    }
    if left == 0 {
        return Err(ReadFault::TooDeep);
    }
    parser.pass();
    let objects = objects(alloc, parser, left - 1, TokenKind::ListClose)?;
    Ok(joined(join, objects))
}

/// Reads objects up to the closing mark. So many braces and brackets may still be opened.
#[cycle(criteria)]
pub fn objects(
    alloc: Global,
    parser: &mut Parser<'_>,
    left: u32,
    close: TokenKind,
) -> Result<Vec<Object>, ReadFault>
    requires { is_end close ≡ false }
    ensures read { IfOk result (λ os. ReadsObjects left close (to_come parser.old) (objects_view os.items) (to_come parser.new)) }
    ensures refused { IfErr result (λ f. f ≢ Memory → RefusesObjects left close (to_come parser.old) f) }
{
    let mut objects = Vec::new(alloc);
    'row: loop {
        let x = object(alloc, parser, left)?;
        objects.push(x)?;
        if !parser.more(close)? {
            return Ok(objects);
        }
    }
}
