// A step of the piece judge for one byte inside a chunk: of a text, of a number in a row, of a chunk that is passed over. A number that is complete is held
// to its rule, a header that is complete to the nesting rule. By value, as in b3d_pieces_item_steps.
#![tactic(auto)]

pub mod bytes;
pub mod rows;
