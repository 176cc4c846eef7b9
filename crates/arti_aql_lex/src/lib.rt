//! The tokens of a query text.
#![tactic(auto)]

pub mod escape;
mod lexer;
mod literal;
mod token;
mod value;

pub use lexer::Lexer;
pub use token::{LexFault, Token, TokenKind};
