// Numbers of a row that the piece judge takes at once, as long as the row goes on or another item of the same chunk begins. What stands afterwards is what
// the machine comes to over these bytes, taken one by one. What the row's rules ask is a few numbers, found once.
#![tactic(auto)]

pub mod numbers;

use b3d_pieces_spec::Kept;

// A place in a row: `from`, the next byte of the piece; `at`, the place where the present number begins, and `start`, where the row began; `i`, which number
// it is, `j`, how many of its bytes came, `acc`, what they are worth; `kept`, the first three numbers of the row; `count`, how many items the chunk had.
#[derive(Clone, Copy)]
pub struct RowPlace {
    pub from: usize,
    pub at: usize,
    pub start: usize,
    pub i: usize,
    pub j: usize,
    pub acc: usize,
    pub kept: Kept,
    pub count: usize,
}

// Which numbers of a row are judged: those from index `first` up to, not including, `past`. They are colours if `colour` is set, else ids below `names`.
#[derive(Clone, Copy)]
pub struct JudgedNumbers {
    pub first: usize,
    pub past: usize,
    pub colour: bool,
    pub names: usize,
}

// What the rules of a row ask: `long`, how many numbers it has; `judged`, which of them are judged; `again`, whether another such row may follow it; `end`,
// the chunk's end.
#[derive(Clone, Copy)]
pub struct RowRules {
    pub long: usize,
    pub judged: JudgedNumbers,
    pub again: bool,
    pub end: usize,
}
