//! Rows of texts and of tests.
ghost use Rattle.std.specs.Prelude.{◌≡◌, ◌≢◌, ◌++◌, List, ℕ, true, false, Some, None, IfOk, IfErr, map};
ghost use Rattle.arti_aql_lex.specs.Tokens.{is_end};
ghost use Rattle.arti_aql_lex.specs.declared.token.TokenKind.TheVariants.{ObjectClose};
ghost use Rattle.arti_aql_parse.specs.Ahead.{to_come, TakesLiteral};
ghost use Rattle.arti_aql_parse.specs.declared.fault.ReadFault.TheVariants.{Memory};
ghost use Rattle.arti_aql_parse.specs.Grammar.{ReadsTexts, ReadsTest, ReadsTests};
ghost use Rattle.arti_aql_parse.specs.Refusal.{RefusesTexts, RefusesTest, RefusesTests};

use crate::fault::ReadFault;
use crate::numbers::number_of;
use crate::parser::Parser;
use crate::query::{Lit, Test};
use crate::words::{is_null, op_of};
use arti_aql_lex::TokenKind;
use arti_rows::{Text, What};
use std::alloc::{AllocError, Global};

/// Passes a literal, if the first token is one.
pub fn literal(alloc: Global, parser: &mut Parser<'_>) -> Result<Option<Lit>, AllocError>
    ensures { IfOk result (λ x. TakesLiteral x (to_come parser.old) (to_come parser.new)) }
{
    if parser.is_at(TokenKind::Words) {
        let text = parser.text(alloc)?;
        parser.pass();
        return Ok(Some(Lit::Words(text)));
    }
    if parser.is_at(TokenKind::Number) {
        let text = parser.text(alloc)?;
        parser.pass();
        return Ok(Some(Lit::Number(number_of(text.as_str()))));
    }
    if parser.is_at(TokenKind::Name) {
        let text = parser.text(alloc)?;
        if is_null(text.as_str()) {
            parser.pass();
            return Ok(Some(Lit::Null));
        }
    }
    Ok(None)
}

/// Reads the texts of a row up to its closing mark.
pub fn texts(
    alloc: Global,
    parser: &mut Parser<'_>,
    close: TokenKind,
) -> Result<Vec<Text>, ReadFault>
    requires { is_end close ≡ false }
    ensures read { IfOk result (λ xs. ReadsTexts close (to_come parser.old) xs.items (to_come parser.new)) }
    ensures refused { IfErr result (λ f. f ≢ Memory → RefusesTexts close (to_come parser.old) f) }
{
    let mut texts = Vec::new(alloc);
    'row: loop {
        let text = parser.take_text(alloc)?;
        texts.push(text)?;
        if !parser.more(close)? {
            return Ok(texts);
        }
    }
}

/// Reads one test of a field.
#[tactic(auto, using(crate::specs::Refusal::no_words, crate::specs::Refusal::no_operator, crate::specs::Refusal::no_colon, crate::specs::Refusal::no_literal))]
pub fn test(alloc: Global, parser: &mut Parser<'_>) -> Result<Test, ReadFault>
    ensures read { IfOk result (λ x. ReadsTest (to_come parser.old) x (to_come parser.new)) }
    ensures refused { IfErr result (λ f. f ≢ Memory → RefusesTest (to_come parser.old) f) }
{
    if !parser.is_at(TokenKind::Words) {
        return Err(parser.refusal(What::Operator));
    }
    let name = parser.text(alloc)?;
    let Some(op) = op_of(name.as_str()) else {
        return Err(parser.refusal(What::Operator));
    };
    parser.pass();
    parser.take(TokenKind::Colon, What::Colon)?;
    match literal(alloc, parser)? {
        Some(value) => Ok(Test { op, value }),
        None => Err(parser.refusal(What::Literal)),
    }
}

/// Reads the tests of a field up to the closing brace.
pub fn tests(alloc: Global, parser: &mut Parser<'_>) -> Result<Vec<Test>, ReadFault>
    ensures read { IfOk result (λ xs. ReadsTests (to_come parser.old) xs.items (to_come parser.new)) }
    ensures refused { IfErr result (λ f. f ≢ Memory → RefusesTests (to_come parser.old) f) }
{
    let mut tests = Vec::new(alloc);
    'row: loop {
        let x = test(alloc, parser)?;
        tests.push(x)?;
        if !parser.more(TokenKind::ObjectClose)? {
            return Ok(tests);
        }
    }
}
