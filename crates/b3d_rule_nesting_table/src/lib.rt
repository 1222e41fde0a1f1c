// The nesting rule as one constant table: what may stand inside what, in which order and how often. docs/NESTING.md shows it in words.
#![tactic(auto)]

ghost use Rattle.std.specs.Prelude.{◌≡◌};
ghost use Rattle.b3d_rule_nesting_table.specs.Table.{nesting_table};

// A tag inside a chunk. Permission: `allowed`. Order: `turn`, chunks stand in the order of their turns. Number: `must`, one or more stand
// there; `again`, more than one may. Tags of one turn mix freely, but only one chunk of a turn has a tag that may not stand again.
#[derive(Clone, Copy)]
pub struct Entry {
    pub allowed: bool,
    pub turn: u8,
    pub must: bool,
    pub again: bool,
}

// A tag that may not stand.
const DENY: Entry = Entry {
    allowed: false,
    turn: 0,
    must: false,
    again: false,
};

// At most one, at turn 1.
const OPT1: Entry = Entry {
    allowed: true,
    turn: 1,
    must: false,
    again: false,
};

// At most one, at turn 2.
const OPT2: Entry = Entry {
    allowed: true,
    turn: 2,
    must: false,
    again: false,
};

// At most one, at turn 3.
const OPT3: Entry = Entry {
    allowed: true,
    turn: 3,
    must: false,
    again: false,
};

// Any number, at turn 2.
const ANY2: Entry = Entry {
    allowed: true,
    turn: 2,
    must: false,
    again: true,
};

// Any number, at turn 3.
const ANY3: Entry = Entry {
    allowed: true,
    turn: 3,
    must: false,
    again: true,
};

// Exactly one, at turn 1.
const ONE1: Entry = Entry {
    allowed: true,
    turn: 1,
    must: true,
    again: false,
};

// One or more, at turn 2.
const MIN2: Entry = Entry {
    allowed: true,
    turn: 2,
    must: true,
    again: true,
};

// The table: a row for the chunk that encloses, a column for the tag that stands in it.
const NESTING: [[Entry; 10]; 10] = [
    //BB3D TEXS  BRUS  NODE  MESH  VRTS  TRIS  BONE  KEYS  ANIM
    [DENY, OPT1, OPT2, OPT3, DENY, DENY, DENY, DENY, DENY, DENY], // BB3D
    [DENY; 10], // TEXS
    [DENY; 10], // BRUS
    [DENY, DENY, DENY, ANY3, OPT1, DENY, DENY, OPT1, ANY2, OPT2], // NODE
    [DENY, DENY, DENY, DENY, DENY, ONE1, MIN2, DENY, DENY, DENY], // MESH
    [DENY; 10], // VRTS
    [DENY; 10], // TRIS
    [DENY; 10], // BONE
    [DENY; 10], // KEYS
    [DENY; 10], // ANIM
];

// Returns the table: an entry for each tag that encloses and each tag that stands in it.
pub fn nesting_table() -> [[Entry; 10]; 10]
    ensures { result ≡ nesting_table }
{
    NESTING
}
