//! The entries of a symbol table with their names, and the executable areas of a program.
#![tactic(auto)]

mod code;
mod symbols;

pub use code::Code;
pub use symbols::{SYM_SIZE, Symbol, ended, has_name, name_of, symbol_at};
