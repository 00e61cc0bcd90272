// The blocks of EN 300 396-3 as lent bytes: SCH/S, SCH/H and SCH/F, and the layout of a message over slots.
#![tactic(auto)]

pub mod continuation;
pub mod fault;
pub mod header;
mod sdu;
pub mod sizes;
pub mod slots;
pub mod sync;
pub mod widths;
