//! The programs as functions from their input to their output.
#![tactic(auto)]

mod divide;
pub mod line;
pub mod patterns;
pub mod rule_text;
pub mod script;
pub mod totals;
