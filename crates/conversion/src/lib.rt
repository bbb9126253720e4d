//! Puts a list of productions into strict Chomsky form, in vectors and tables of fixed size: binarised rules, nullable symbols by rounds, unit
//! steps and their chosen chains, strict rules.
#![tactic(auto)]

pub mod binarise;
pub mod binarised;
pub mod chain;
pub mod chains;
pub mod form;
pub mod nullable;
pub mod nullables;
pub mod production;
pub mod productions;
pub mod right;
pub mod steps;
pub mod strict;
