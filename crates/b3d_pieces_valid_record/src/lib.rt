// Tests of single values that a caller hands to the piece judge: an open chunk and what it may still add, the part that is being read, the totals. They look
// at numbers alone, whatever chunks stand around.
#![tactic(auto)]

pub mod loads;
pub mod parts;
