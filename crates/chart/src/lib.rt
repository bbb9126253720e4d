//! Charts over the caller's table of weights, the same for every alphabet and every weighing.
#![tactic(auto)]

mod active;
mod blank_walk;
mod blanks;
mod cells;
pub mod chart;
mod choice;
mod column;
mod columns;
pub mod fault;
pub mod node;
mod node_table;
mod nullable;
mod pairs;
pub mod part;
pub mod reading;
mod strict;
mod symbols;
pub mod totals;
mod weighed;
mod writer;
