//! The tokens of a text, one ahead.
ghost use Rattle.std.specs.Prelude.{◌≡◌, ◌≢◌, ◌^◌, ◌<◌, ◌↔◌, IsTrue, true, false, length, Some, IfOk, IfErr, OnOk};
ghost use Rattle.std.specs.Bool.{MatchBool};
ghost use Rattle.arti_aql_lex.specs.Lexed as rows;
ghost use Rattle.arti_aql_lex.specs.Tokens.{is_end, IsNumber};
ghost use Rattle.arti_aql_lex.specs.declared.token.TokenKind.TheVariants.{Comma, Number, Words};
ghost use Rattle.arti_rows.specs.declared.refusal.What.TheVariants as what;
ghost use Rattle.arti_aql_parse.specs.Front.{kind_at, first_value, tail, is_token, wrong};
ghost use Rattle.arti_aql_parse.specs.Grammar.{Mark, ReadsText};
ghost use Rattle.arti_aql_parse.specs.Refusal.{NoneFollows};
ghost use Rattle.arti_aql_parse.specs.Ahead.{to_come};
ghost use Rattle.arti_aql_parse.specs.declared.fault.ReadFault.TheVariants.{Memory};

use crate::fault::ReadFault;
use arti_aql_lex::{LexFault, Lexer, Token, TokenKind};
use arti_rows::{Text, What};
use std::alloc::{AllocError, Global};
use std::marker::Model;

/// The tokens that are to come.
#[derive(Drop)]
pub struct Parser<'a> {
    lexer: Lexer<'a>,
    first: Result<Token, LexFault>,
}

impl<'a> Model for Parser<'a> {
    ghost use Rattle.arti_aql_parse.specs.Ahead.{Standing, IsFirst};

    ghost Value = { Standing };

    ghost view = { λ p. record { first = p.first; behind = p.lexer } };

    ghost invariant = { λ p. IsFirst p.first p.lexer.text };
}

impl<'a> Parser<'a> {
    pub fn new(text: &'a str) -> Parser<'a>
        requires { length text.now < 2 ^ 32 }
        ensures { to_come result ≡ rows.lexed 0 0 text.entry.now }
    {
        let mut lexer = Lexer::new(text);
        let first = lexer.next();
        Parser { lexer, first }
    }

    /// Whether the first token is of a kind.
    pub fn is_at(&self, kind: TokenKind) -> bool
        ensures { IsTrue result ↔ (kind_at (to_come self.now) ≡ Some kind) }
    {
        match self.first {
            Ok(token) => token.kind == kind,
            Err(_) => false,
        }
    }

    /// The refusal of the first token, in whose place a part should begin.
    pub fn refusal(&self, part: What) -> ReadFault
        ensures { result ≡ wrong part (to_come self.now) }
    {
        match self.first {
            Ok(token) => ReadFault::Expected(token.start, part),
            Err(fault) => ReadFault::Lex(fault),
        }
    }

    /// What the first token stands for.
    pub fn text(&self, alloc: Global) -> Result<Text, AllocError>
        requires { is_token (to_come self.now) ≡ true }
        ensures value { IfOk result (λ text. text ≡ first_value (to_come self.now)) }
        ensures number { kind_at (to_come self.now) ≡ Some Number → IfOk result (λ text. IsNumber text) }
    {
        let Ok(token) = self.first else {
            unreachable!();
        };
        let mut bytes = Vec::new(alloc);
        self.lexer.text_of(&token, &mut bytes)?;
        match String::from_utf8(bytes) {
            Ok(text) => Ok(Text::from_string(text)),
            Err(_) => unreachable!(),
        }
    }

    /// Passes the first token.
    pub fn pass(&mut self)
        requires { is_token (to_come self.old) ≡ true }
        ensures { to_come self.new ≡ tail (to_come self.old) }
    {
        self.first = self.lexer.next();
    }

    /// Passes a token of a kind, where a part should begin.
    pub fn take(&mut self, kind: TokenKind, part: What) -> Result<(), ReadFault>
        requires { is_end kind ≡ false }
        ensures ok { OnOk result (Mark kind (to_come self.old) (to_come self.new)) }
        ensures err { IfErr result (λ f. (f ≡ wrong part (to_come self.old)) × (kind_at (to_come self.old) ≢ Some kind)) }
    {
        if !self.is_at(kind) {
            return Err(self.refusal(part));
        }
        self.pass();
        Ok(())
    }

    /// Passes a text, where one should begin.
    pub fn take_text(&mut self, alloc: Global) -> Result<Text, ReadFault>
        ensures ok { IfOk result (λ x. ReadsText (to_come self.old) x (to_come self.new)) }
        ensures err { IfErr result (λ f. f ≢ Memory → (f ≡ wrong what.Text (to_come self.old)) × (kind_at (to_come self.old) ≢ Some Words)) }
    {
        if !self.is_at(TokenKind::Words) {
            return Err(self.refusal(What::Text));
        }
        let text = self.text(alloc)?;
        self.pass();
        Ok(text)
    }

    /// Passes a comma, or the mark that closes a row; says which.
    pub fn more(&mut self, close: TokenKind) -> Result<bool, ReadFault>
        requires { is_end close ≡ false }
        ensures more { IfOk result (λ more. MatchBool more (Mark Comma (to_come self.old) (to_come self.new)) (Mark close (to_come self.old) (to_come self.new))) }
        ensures err { IfErr result (NoneFollows close (to_come self.old)) }
    {
        if self.is_at(TokenKind::Comma) {
            self.pass();
            return Ok(true);
        }
        self.take(close, What::CommaOrClose)?;
        Ok(false)
    }
}
