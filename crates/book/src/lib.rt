//! Rule books over any alphabet: a table of patterns, an open book that takes rules, a closed book that charts are cut from.
#![tactic(auto)]

pub mod alphabet;
pub mod books;
pub mod converted;
pub mod fault;
pub mod kinds;
pub mod loads;
pub mod offers;
pub mod open;
pub mod rules;
pub mod strikes;
pub mod table;
pub mod tables;
