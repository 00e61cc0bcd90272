#![tactic(auto)]

// A message from build to hand-over, stated and proved over the crates below; this crate has no code of its own.
