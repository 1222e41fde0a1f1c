// A turn of the piece judge's machine, by value: it is handed the last record of the row, and says which record is to be written, so that any row serves. A
// turn that finds a chunk to be entered or left takes no byte.
#![tactic(auto)]

pub mod turning;

use b3d_pieces_item_steps::Now;
use b3d_pieces_spec::Open;

// What is held after a turn: `now`; `depth`, how many chunks the row holds; `rec` and `put`, the record to write and its place.
#[derive(Clone, Copy)]
pub struct Turned {
    pub now: Now,
    pub depth: usize,
    pub put: usize,
    pub rec: Open,
}
