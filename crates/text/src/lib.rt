// Reads one line of rule text: its words, their kinds and numbers, and the rule that they say.
#![tactic(auto)]

pub mod digits;
pub mod fault;
pub mod lexer;
pub mod lines;
pub mod reader;
pub mod rule_line;
pub mod token;
mod tokens;
pub mod words;
