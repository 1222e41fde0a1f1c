// What a caller of the piece judge keeps between two calls, as numbers only, so that C can hold it too: the state, and a record of the lent row. Here are
// these types, and the way to what the judge holds and back.
#![tactic(auto)]

pub mod records;
pub mod states;

use b3d_pieces_spec::{Kept, Totals};

// An open chunk as numbers (`b3d_pieces_spec::Open`): its tag by its number, `spent` as 0 or 1, its fixed data as `first`, `second` and `third`.
#[repr(C)]
#[derive(Clone, Copy)]
pub struct OpenRecord {
    pub tag: usize,
    pub head: usize,
    pub end: usize,
    pub turn: usize,
    pub spent: usize,
    pub level: usize,
    pub first: usize,
    pub second: usize,
    pub third: usize,
    pub count: usize,
    pub told: usize,
}

// What is held between two calls as numbers (`b3d_pieces_judge_step::Judge`), 43 of them. `kind` says what stands at the present place `at`: 0 a text that
// began at `start`, 1 a row that began at `start`, 2 a chunk that is passed over up to `start`, 3 a refusal by its number, every other number that all
// was read. `inner` is the innermost chunk; the row holds those around it. C has the numbers of `kept` and `totals` one after the other.
#[repr(C)]
#[derive(Clone, Copy)]
pub struct PieceState {
    pub kind: u32,
    pub number: u32,
    pub size: usize,
    pub worth: usize,
    pub letters: usize,
    pub length: usize,
    pub shut: usize,
    pub depth: usize,
    pub at: usize,
    pub fixed: usize,
    pub start: usize,
    pub index: usize,
    pub came: usize,
    pub value: usize,
    pub kept: Kept,
    pub inner: OpenRecord,
    pub totals: Totals,
}

// What a piece answers: 0 and 0 where it was taken, else the refusal and its place; and the state for the next call.
#[repr(C)]
#[derive(Clone, Copy)]
pub struct PieceFed {
    pub number: u32,
    pub place: u32,
    pub state: PieceState,
}
