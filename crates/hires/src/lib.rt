#![tactic(auto)]

// Request 04, and a transfer from build to booking, stated and proved over the crates below; this crate has no code of
// its own.
