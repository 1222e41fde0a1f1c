// The piece judge (E6) as definitions: a machine that is handed one byte of a file after the other, what it holds between two bytes, and its calls. The
// proofs have the theorem that, however a file is cut, the close answers what the reader says of all bytes joined, and that 19 records are enough. The crate
// has no function.
use b3d_spec::{Counts, Tag};

// The most bytes that the piece judge counts, and so the most rows, as `Limits.most_counted` has it; so below for the others: each function that cites one is
// held to that. It is one more than a file may have.
pub const MOST_COUNTED: usize = 16777217;

// Stands for a number of rows that no file has: one more than is counted.
pub const OVER_COUNTED: usize = 16777218;

// The most chunks that are open around another one: a BB3D, 16 nodes and a MESH.
pub const MOST_AROUND: usize = 18;

// The most chunks that are open around a MESH: a BB3D and 16 nodes.
pub const MOST_AROUND_MESH: usize = 17;

// The records that a call must be lent, as `Calls.records` has it.
pub const RECORDS: usize = 19;

// The records that a call must be lent, as the place of a refusal.
pub const RECORDS_NEEDED: u32 = RECORDS as u32;

// How many words a record has, as `Row.record_words` has it.
pub const RECORD_WORDS: usize = 11;

// The words of the records that a call must be lent.
pub const LENT_WORDS: usize = 209;

// What was counted so far: `version`, `slots` (n_texs) and the rows of each table (`rows` has those of tables 3 to 10). Of the present node: `own`, the
// vertices of its mesh; `told`, its bone limit, which is how many vertices the nodes above it let its BONE name; `below`, the bone limit that it hands to the
// nodes below it.
#[repr(C)]
#[derive(Clone, Copy)]
pub struct Totals {
    pub version: usize,
    pub slots: usize,
    pub textures: usize,
    pub brushes: usize,
    pub own: usize,
    pub told: usize,
    pub below: usize,
    pub rows: Counts,
}

// The first three numbers of a row; 0 for each that was not read.
#[repr(C)]
#[derive(Clone, Copy)]
pub struct Kept {
    pub first: usize,
    pub second: usize,
    pub third: usize,
}

// The numbers kept of a row of which nothing was read: three times 0.
pub const NONE_KEPT: Kept = Kept {
    first: 0,
    second: 0,
    third: 0,
};

// An open chunk: `tag`; `head`, the place of its header; `end`, the place after its last byte; `turn` and `spent`, how far the nesting rule has come inside
// it; `level`, how many levels of nodes are left below it; `kept`, the first three numbers of its fixed data; `count`, how many items it had; `told`, for a
// NODE its bone limit, else 0.
#[derive(Clone, Copy)]
pub struct Open {
    pub tag: Tag,
    pub head: usize,
    pub end: usize,
    pub turn: usize,
    pub spent: bool,
    pub level: usize,
    pub kept: Kept,
    pub count: usize,
    pub told: usize,
}

// What stands at the present place of the innermost chunk. The flag of a text or a row says that it is fixed data, not an item or a header.
#[derive(Clone, Copy)]
pub enum Part {
    // A text, by the place where it began.
    Text(bool, usize),
    // A number of a row: the place where the row began, the number's index, how many of its bytes came, what they are worth, and the first three numbers.
    Row(bool, usize, usize, usize, usize, Kept),
    // A chunk with an unknown tag, which is passed over up to this place.
    Skip(usize),
}
