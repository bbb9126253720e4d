// Weighings: what the derivations of a text are worth together. Also a bank of values, one for each of 128 symbols.
#![tactic(auto)]

pub mod bank;
pub mod capped;
pub mod kinds;
pub mod weighing;
