//! The parser: from tokens to a module.

mod code;
mod draft;
mod equal_types;
mod fields;
mod items;
mod modules;
mod names;
mod plain;
mod tokens;
mod types;

pub use modules::parse;
