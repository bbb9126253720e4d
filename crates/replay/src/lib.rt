//! The whole promise on one fresh call: the calls of a book, its closing, a chart cut from it and the chart's calls, each with its answer, and then
//! the total or the reading. Nothing is allocated.
#![tactic(auto)]

pub mod answer;
mod book_run;
pub mod call;
mod chart_run;
pub mod fault;
pub mod reading;
pub mod replay;
