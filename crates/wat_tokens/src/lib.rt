//! Tokens of the WebAssembly text format.
#![tactic(auto)]

mod comments;
mod elements;
mod escapes;
mod laws;
mod pieces;
mod quoted;
mod stored;
mod strings;
mod token_list;

pub use laws::{strings_are_elements, tokens_are_pieces};
pub use quoted::Quoted;
pub use token_list::{Token, TokenFault, Tokens};
