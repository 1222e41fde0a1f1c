// The numbers of a row by the tag of their chunk, for the piece judge: how many there are, and whether each keeps its rule. The rules are those of b3d_spec,
// in the strict mode; `b3d_pieces_spec` says which row stands where.
#![tactic(auto)]

pub mod faults;
pub mod lengths;
