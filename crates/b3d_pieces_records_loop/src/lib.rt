// The piece judge as rounds, by value, so that a caller can hold the row in any form. Whoever holds the row reads the record at `get` before a round, and
// writes `rec` at `put` after it. Before the rounds state and row were tested, and bytes that can be taken at once were taken (`b3d_pieces_at_once`).
#![tactic(auto)]

pub mod closing;
pub mod rounds;

use b3d_pieces_judge_step::Turn;
use b3d_pieces_state::{OpenRecord, PieceState};
use b3d_spec::Answer;

// A round: `go`, whether another follows; `get`, the place of the record to read; `put` and `rec`, the record to write and its place; `turn`, the turn over
// the piece's bytes.
#[derive(Clone, Copy)]
pub struct Round {
    pub go: bool,
    pub get: usize,
    pub put: usize,
    pub rec: OpenRecord,
    pub turn: Turn,
}

// The close's answer, and the state for the next call.
#[repr(C)]
#[derive(Clone, Copy)]
pub struct PieceClosed {
    pub answer: Answer,
    pub state: PieceState,
}
