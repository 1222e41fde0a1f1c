// The rows of a chunk in a piece: what their rules ask, rows that hold no number to be judged, and all rows that can be taken at once.
#![tactic(auto)]

pub mod judging;
pub mod rows;
