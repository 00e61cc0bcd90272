// A slot report before any receiver is touched: its refusals, what it brings, and what it comes to over what is open.
#![tactic(auto)]

pub mod near;
pub mod place;
pub mod read;
pub mod report;
pub mod run;
pub mod unit;
pub mod verdict;
