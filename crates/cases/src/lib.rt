//! What the programs that run stored cases share.
#![tactic(auto)]

pub mod agreement;
pub mod blocks;
pub mod books;
pub mod cards;
