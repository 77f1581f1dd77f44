//! The tokens of a script: words, names, texts, digits and signs, each with the number of its statement.
#![tactic(auto)]

mod byte;
mod cut;
mod fault;
mod place;
mod script;
mod sign;
mod token;

pub use fault::LexFault;
pub use script::{one_reading, tokens};
pub use token::{Mark, Token, TokenKind};
