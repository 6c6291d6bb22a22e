//! Names of managed objects, by RFC 2578 (SMIv2): `tokens` cuts a module's text, `read_module`
//! reads its definitions, `Names::new` has the built-in ones, `add` adds those of a `Module`,
//! `resolve` returns the identifier that a text means, `name_of` the name of an identifier, and
//! `list` the lines of a module's names. To the layer above `Names` is the list of its definitions,
//! all distinct.
#![tactic(auto)]

mod assignments;
mod built_in;
mod chain;
mod definition;
mod fault;
mod kind;
mod labels;
pub mod laws;
mod lexeme;
mod lexer;
mod listing;
mod modules;
mod names;
mod numbers;
mod part;
mod pieces;
mod places;
mod position;
mod printing;
mod read_fault;
mod rules;
mod scan;
mod text;
mod text_fault;
mod token;
mod values;
mod word;

pub use definition::{Definition, Definitions, Module};
pub use fault::{Clash, FormFault, NamesFault};
pub use kind::TokenKind;
pub use labels::Labels;
pub use lexer::tokens;
pub use listing::{ListFault, list};
pub use modules::read_module;
pub use names::Names;
pub use numbers::Numbers;
pub use position::Position;
pub use printing::{InNumbers, NameTexts};
pub use text_fault::TextFault;
pub use token::{Span, Token};
pub use word::Word;
