// The test of the state and the row that a caller hands to the piece judge: it holds just where they are as calls leave them (`CanRun`).
#![tactic(auto)]

pub mod loads;
pub mod state;
