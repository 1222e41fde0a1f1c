// What the piece judge holds between two pieces, and a turn of its loop: a byte of BB3D's header, or a turn of the machine. By value, one record of the row
// read and one written, as in b3d_pieces_step.
#![tactic(auto)]

pub mod steps;
pub mod taking;

use b3d_pieces_item_steps::Now;
use b3d_pieces_spec::Open;

// What is held between two pieces: `size`, how many bytes came; of BB3D's header `worth`, the value so far of the number being read, `letters`, its tag, and
// `length`; `shut`, whether the file was closed; `depth`, how many chunks the row holds; `now`, the innermost chunk and what stands there.
#[derive(Clone, Copy)]
pub struct Judge {
    pub size: usize,
    pub worth: usize,
    pub letters: usize,
    pub length: usize,
    pub shut: bool,
    pub depth: usize,
    pub now: Now,
}

// What is held after a turn, and the record `rec` to write at `put`.
#[derive(Clone, Copy)]
pub struct Taken {
    pub judge: Judge,
    pub put: usize,
    pub rec: Open,
}

// A turn of the loop over a piece: what is held; `at`, the next byte to take, or the last taken while chunks are entered or left; `end`, the end of the
// piece; `get`, the place of the record to read; `rec` and `put`, the record to write and its place.
#[derive(Clone, Copy)]
pub struct Turn {
    pub judge: Judge,
    pub at: usize,
    pub end: usize,
    pub get: usize,
    pub put: usize,
    pub rec: Open,
}
