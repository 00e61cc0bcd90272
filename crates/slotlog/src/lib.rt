// The slot log: its records, the replies to them, the lines that are printed of these, and a run over a log.
#![tactic(auto)]

pub mod log;
mod print;
mod replies;
mod room;
pub mod run;
