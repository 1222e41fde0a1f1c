// The three calls of the piece judge (E6), with a row of plain words: a fresh state, a piece, the close. The calls ask nothing of the caller: with any state
// and any row they end, and a state and a row that no calls leave (`CanRun` does not hold) are refused with 15. The row is 19 records of 11 words.
#![tactic(auto)]

pub mod calls;

use b3d_pieces_judge_step::Judge;
use b3d_spec::Answer;

// A piece's answer, 0 and 0 where it was taken, else the refusal and its place; and the state for the next call.
#[derive(Clone, Copy)]
pub struct Fed {
    pub number: u32,
    pub place: u32,
    pub judge: Judge,
}

// The close's answer, and the state for the next call.
#[derive(Clone, Copy)]
pub struct Closed {
    pub answer: Answer,
    pub judge: Judge,
}
